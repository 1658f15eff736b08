// The check of a line's tables: a class and a byte length for each character, a level for each byte.
ghost use Rattle.levels.specs.Refusals.{byte_count, fault_at, known, lawful, verdict};
ghost use Rattle.std.specs.List.{position};
ghost use Rattle.std.specs.Prelude.{◌≡◌, not};

use crate::classes::BidiClass;
use crate::fault::{ClassCause, ClassFault, ClassTable};

// A character has at most so many bytes, and a line.
const LONGEST_CHARACTER: u8 = 4;

const LONGEST_LINE: usize = 65535;

// The highest level of a character.
const HIGHEST_LEVEL: u8 = 126;

// How many bytes the characters have together, unless one has none or more than four, or they are too many.
fn byte_count(lengths: &[u8]) -> Option<usize>
    ensures { result ≡ byte_count lengths.now }
{
    let mut total: usize = 0;
    for length in lengths {
        if *length < 1 || *length > LONGEST_CHARACTER {
            return None;
        }
        total += usize::from(*length);
        if total > LONGEST_LINE {
            return None;
        }
    }
    Some(total)
}

fn unfit(row: usize, table: ClassTable) -> ClassFault
    ensures { result ≡ fault_at row table }
{
    ClassFault {
        cause: ClassCause::Unfit,
        row,
        table,
    }
}

// The first row whose class is unknown.
fn first_unknown(classes: &[u8]) -> Option<usize>
    ensures { result ≡ position (λ code. not (known code)) classes.now }
{
    classes
        .iter()
        .position(|code| BidiClass::try_from(*code).is_err())
}

// The first byte whose level is too high.
fn first_too_high(levels: &[u8]) -> Option<usize>
    ensures { result ≡ position (λ level. not (lawful level)) levels.now }
{
    levels.iter().position(|level| *level > HIGHEST_LEVEL)
}

// Refuses tables that do not fit together. What concerns whole tables comes first, at row 0: the lengths, then the number
// of levels, then the paragraph's level. Then comes the first row that is wrong, of the classes before that of the levels.
pub(crate) fn check_tables(
    paragraph_level: u8,
    classes: &[u8],
    lengths: &[u8],
    levels: &[u8],
) -> Result<(), ClassFault>
    ensures { result ≡ verdict paragraph_level classes.now lengths.now levels.now }
{
    if classes.len() != lengths.len() {
        return Err(unfit(0, ClassTable::Lengths));
    }
    let Some(count) = byte_count(lengths) else {
        return Err(unfit(0, ClassTable::Lengths));
    };
    if count != levels.len() {
        return Err(unfit(0, ClassTable::Levels));
    }
    if paragraph_level > 1 {
        return Err(unfit(0, ClassTable::ParagraphLevel));
    }
    if let Some(row) = first_unknown(classes) {
        return Err(unfit(row, ClassTable::Classes));
    }
    if let Some(row) = first_too_high(levels) {
        return Err(unfit(row, ClassTable::Levels));
    }
    Ok(())
}
