// Numbers in a line: decimals with single spaces between them.
ghost use Rattle.std.specs.Prelude.{◌≡◌, ℕ, ◌<◌, ◌≤◌, length, IfOk, string_bytes, decimal, MatchOption, ◌≢◌, slice_index};
ghost use Rattle.seen_text.specs.Numbers.{spelled};

use std::alloc::{AllocError, Global};
use std::fmt::Write;

// The highest level that an input may give.
const HIGHEST_LEVEL: u8 = 126;

// The numbers, written in a line.
pub(crate) fn spell(heap: Global, numbers: &[usize]) -> Result<String, AllocError>
    ensures { IfOk result (λ s. string_bytes s ≡ spelled numbers.now) }
{
    let Some((first, rest)) = numbers.split_first() else {
        return Ok(String::new(heap));
    };
    let mut line = first.to_string(heap)?;
    for number in rest {
        write!(line, " {number}")?;
    }
    Ok(line)
}

// The level that the word writes as a decimal: a number of 0 to 126 with no sign and no leading zero.
pub(crate) fn read_level(word: &[u8]) -> Option<u8>
    ensures { MatchOption result ((level : ℕ) → level ≤ 126 → word.now ≢ decimal level) (λ level. (level ≤ 126) × (word.now ≡ decimal level)) }
{
    let level = std::str::from_utf8(word).ok()?.parse::<u8>().ok()?;
    if level > HIGHEST_LEVEL {
        return None;
    }
    if word.len() > 1 && word[0] <= b'0' {
        return None;
    }
    Some(level)
}
