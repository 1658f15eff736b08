// The characters of a text, as elements of a line.
ghost use Rattle.seen_text.specs.Seen.{characters_of};
ghost use Rattle.std.specs.Prelude.{◌≡◌, length, IfOk};
ghost use Rattle.std.specs.Str.{chars};

use std::alloc::{AllocError, Global};
use visual_order::Character;

// How many characters the text has.
pub(crate) fn count_of(text: &str) -> usize
    ensures { result ≡ length (chars text.now) }
{
    text.chars().count()
}

// Each character of the text with its level, which stands at the same place of `levels`, as far as both go.
pub(crate) fn characters(
    heap: Global,
    text: &str,
    levels: &[u8],
) -> Result<Vec<Character>, AllocError>
    ensures { IfOk result (λ v. v.items ≡ characters_of 0 (chars text.now) levels.now) }
{
    text.char_indices()
        .zip(levels)
        .map(|((start, c), level)| Character {
            start,
            len: c.len_utf8(),
            level: *level,
        })
        .collect(heap)
}
