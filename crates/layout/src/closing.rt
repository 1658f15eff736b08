// What a closing line goes by, and its ellipsis.
ghost use Rattle.layout.specs.Elided.{elided_bytes};
ghost use Rattle.layout.specs.Ellipsis.{ellipsis_range, first_of, last_of, level_between};
ghost use Rattle.paragraph.specs.Aheads.{text_at};
ghost use Rattle.std.specs.Prelude.{◌≡◌};

use crate::elided::elided_bytes;
use crate::ellipsis::{ellipsis_level_between, ellipsis_range};
use crate::line::ElidedBytes;
use measure::measure::Measure;
use paragraph::ahead::Ahead;
use walk::line::VlRange;

/// What a closing line goes by, whatever its mode and its width: a measure, what is ahead, the width of the ellipsis, and where the bytes begin that
/// the ellipsis stands for if nothing stands before it.
//
// The list is no field: in place of asking for its room each method would then ensure that the field keeps its ghost name, which is no plainer.
#[derive(Drop)]
pub struct Closing<'a, M: Measure> {
    pub m: &'a M,
    pub ahead: Ahead<'a>,
    pub ellipsis: M::Width,
    pub none_before: usize,
}

impl<M: Measure> Closing<'_, M> {
    /// The range of the ellipsis between the ranges before it and those behind it, and the bytes that it stands for.
    pub fn ellipsis_between(&self, before: &[VlRange], behind: &[VlRange]) -> (VlRange, ElidedBytes)
        ensures range { result.0 ≡ ellipsis_range (level_between (text_at self.now.ahead).direction (last_of before.now) (first_of behind.now)) }
        ensures bytes { result.1 ≡ elided_bytes (text_at self.now.ahead) self.now.none_before before.now behind.now }
    {
        let tables = self.ahead.tables.rows;
        let last = before.last().copied();
        let first = behind.first().copied();
        let level = ellipsis_level_between(tables.direction, last, first);
        let elided = elided_bytes(tables, self.none_before, before, behind);
        (ellipsis_range(level), elided)
    }
}
