// A line of levels.
ghost use Rattle.seen_text.specs.Reading.{ReadsLevels};

use crate::format_fault::{FormatFault, InputFault};
use crate::numbers::read_level;
use std::alloc::Global;

// The levels of a line: decimals with single spaces between them.
pub(crate) fn read_levels(heap: Global, line: &[u8]) -> Result<Vec<u8>, InputFault>
    ensures { ReadsLevels line.now result }
{
    let mut levels = Vec::new(heap);
    if line.is_empty() {
        return Ok(levels);
    }
    for word in line.split(|b| *b == b' ') {
        let Some(level) = read_level(word) else {
            let place = levels.len() + 1;
            return Err(InputFault::Format(FormatFault::NoLevel { place }));
        };
        levels.push(level)?;
    }
    Ok(levels)
}
