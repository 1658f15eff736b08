// The entry itself.
ghost use Rattle.std.specs.Prelude.{◌+◌, ◌≤◌, if◌then◌else◌};

use crate::progress::Progress;

mod closing;
mod opening;
mod taking;

/// A paragraph that is being laid line by line over a measure. The paragraph itself is lent to each call.
///
/// Each line that was taken has a glyph or more, so there are no more lines than glyphs, but for the closing one.
#[derive(Drop)]
pub struct Entry<M> {
    measure: M,
    progress: Progress,
    ghost few_glyphs: { progress.tally.laid + progress.tally.hidden + progress.tally.left ≤ 16384 },
    ghost few_lines: { progress.tally.lines ≤ progress.tally.laid + (if progress.closed then 1 else 0) },
}
