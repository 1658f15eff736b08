// How many lines were replayed, and how many of them differ.
ghost use Rattle.replay.specs.Tally.{tally_bytes};
ghost use Rattle.std.specs.Prelude.{◌≡◌, ◌≤◌, ◌+◌, Some, min, if◌then◌else◌};

use std::fmt;

/// How many lines were replayed, and how many of them are answered otherwise than they say.
#[derive(Clone, Copy, Debug)]
pub struct Tally {
    pub lines: usize,
    pub differ: usize,
    ghost among: { differ ≤ lines },
}

impl Tally {
    /// No line was replayed.
    pub fn new() -> Tally
        ensures lines { result.lines ≡ 0 }
        ensures differ { result.differ ≡ 0 }
    {
        Tally {
            lines: 0,
            differ: 0,
        }
    }

    /// One line more, which agrees or not.
    pub fn with(self, agrees: bool) -> Tally
        ensures lines { result.lines ≡ min (self.lines + 1) usize.MAX }
        ensures differ { result.differ ≡ (if agrees then self.differ else min (self.differ + 1) usize.MAX) }
    {
        Tally {
            lines: self.lines.saturating_add(1),
            differ: if agrees {
                self.differ
            } else {
                self.differ.saturating_add(1)
            },
        }
    }
}

impl fmt::Display for Tally {
    ghost output = { λ t. Some (tally_bytes t.lines t.differ) };

    fn fmt<W: fmt::Write>(&self, f: &mut fmt::Formatter<W>) -> fmt::Result {
        let lines = self.lines;
        let differ = self.differ;
        write!(f, "{lines} lines, {differ} differ")
    }
}
