// The scan of a line by rule L1: one pass over its characters, with the run that stands open.
ghost use Rattle.std.specs.Prelude.{◌≡◌, ◌≤◌, length};
ghost use Rattle.levels.specs.Classes.{role_of};
ghost use Rattle.levels.specs.Refusals.{Fit};
ghost use Rattle.levels.specs.Runs.{levels_after, painted, run_after, start_of};
ghost use Rattle.levels.specs.RuleL1.{adjusted};

use crate::classes::BidiClass;

// The first byte of the run of white space and isolate formatting that stands open, if one does.
type OpenRun = Option<usize>;

// Gives the bytes `from..to` the paragraph's level.
fn paint(paragraph_level: u8, from: usize, to: usize, levels: &mut [u8])
    requires { (from ≤ to) × (to ≤ length levels.old) }
    ensures { levels.new ≡ painted paragraph_level from to levels.old }
{
    levels[from..to].fill(paragraph_level);
}

// One character of a class, which has the bytes `at..end`: the levels that it resets, and the run after it.
fn step(
    paragraph_level: u8,
    run: OpenRun,
    class: BidiClass,
    at: usize,
    end: usize,
    levels: &mut [u8],
) -> OpenRun
    requires { (start_of run at ≤ end) × (end ≤ length levels.old) }
    ensures run { result ≡ run_after run (role_of class) at }
    ensures levels { levels.new ≡ levels_after paragraph_level run (role_of class) at end levels.old }
{
    use BidiClass::*;
    match (run, class) {
        // X9 removed these: they neither open a run nor shut one.
        (_, LRE | RLE | LRO | RLO | PDF | BN) => run,
        (Some(from), B | S) => {
            paint(paragraph_level, from, end, levels);
            None
        }
        (None, B | S) => {
            paint(paragraph_level, at, end, levels);
            None
        }
        (Some(_), WS | FSI | LRI | RLI | PDI) => run,
        (None, WS | FSI | LRI | RLI | PDI) => Some(at),
        (_, L | R | AL | EN | ES | ET | AN | CS | NSM | ON) => None,
    }
}

// Resets the levels of a whole line. The start of the line counts as an open run; a separator ends one and is reset with
// it, any other character that X9 keeps shuts it, and the end of the line ends the last one.
pub(crate) fn reset_runs(paragraph_level: u8, classes: &[u8], lengths: &[u8], levels: &mut [u8])
    requires { Fit paragraph_level classes.now lengths.now levels.old }
    ensures { levels.new ≡ adjusted paragraph_level classes.now lengths.now levels.old }
{
    let mut run = Some(0);
    let mut at = 0;
    for (code, length) in classes.iter().zip(lengths) {
        let class = BidiClass::try_from(*code).unwrap();
        let end = at + usize::from(*length);
        run = step(paragraph_level, run, class, at, end, levels);
        at = end;
    }
    if let Some(from) = run {
        paint(paragraph_level, from, at, levels);
    }
}
