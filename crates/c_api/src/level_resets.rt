// Level resets by rule L1.
ghost use Rattle.c_api.specs.Answers.{status_of};
ghost use Rattle.levels.specs.Faults.{number_of};
ghost use Rattle.levels.specs.Refusals.{verdict};
ghost use Rattle.levels.specs.RuleL1.{adjusted};
ghost use Rattle.std.specs.Prelude.{◌≡◌, is_ok, if◌then◌else◌};

use crate::status::status;
use levels::adjust_levels;

/// Writes the levels after rule L1 over `levels`, and answers 0; or leaves them, and answers the number of the refusal's
/// cause, 11.
#[unsafe(no_mangle)]
pub extern "C" fn cudinstant_adjust_levels(
    paragraph_level: u8,
    classes: &[u8],
    lengths: &[u8],
    levels: &mut [u8],
) -> usize
    ensures status { result ≡ status_of number_of (verdict paragraph_level classes.now lengths.now levels.old) }
    ensures after { levels.new ≡ (if is_ok (verdict paragraph_level classes.now lengths.now levels.old) then adjusted paragraph_level classes.now lengths.now levels.old else levels.old) }
{
    status(adjust_levels(paragraph_level, classes, lengths, levels))
}
