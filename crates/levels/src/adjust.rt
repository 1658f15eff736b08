// The levels of a line after rule L1 of the bidirectional algorithm.
ghost use Rattle.levels.specs.Refusals.{Judged, verdict};
ghost use Rattle.levels.specs.RuleL1.{adjusted, Leveled, roles_of};
ghost use Rattle.std.specs.Prelude.{◌≡◌, is_ok, if◌then◌else◌, OnOk};

use crate::fault::ClassFault;
use crate::scan::reset_runs;
use crate::tables::check_tables;

/// Writes the levels after rule L1 over the old ones, of which there is one for each byte: separators, and white space and
/// isolate formatting before one or at the end of the line, get the paragraph's level. `classes` has the raw code of each
/// character's bidi class, and `lengths` its number of bytes. Tables that do not fit together are refused, and the levels
/// stay as they were.
//
// The four tables come one by one, as C hands them over.
pub fn adjust_levels(
    paragraph_level: u8,
    classes: &[u8],
    lengths: &[u8],
    levels: &mut [u8],
) -> Result<(), ClassFault>
    ensures verdict { result ≡ verdict paragraph_level classes.now lengths.now levels.old }
    ensures grounds { Judged paragraph_level classes.now lengths.now levels.old result }
    ensures after { levels.new ≡ (if is_ok result then adjusted paragraph_level classes.now lengths.now levels.old else levels.old) }
    ensures rule { OnOk result (Leveled paragraph_level (roles_of classes.now) lengths.now levels.old levels.new) }
{
    check_tables(paragraph_level, classes, lengths, levels)?;
    reset_runs(paragraph_level, classes, lengths, levels);
    Ok(())
}
