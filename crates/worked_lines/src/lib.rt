// Small paragraphs whose lines were worked out by hand, as one theorem over whole entries. The function does nothing: its contract is the theorem.
#![tactic(auto)]

ghost use Rattle.worked_lines.specs.Worked.{Worked};

use measure::cells::Cells;
use measure::measure::Measure;

/// What calls on entries of words with one cell to a glyph answer, and the visual order of four levels.
pub fn worked_lines()
    ensures { Worked ⟦<Cells as Measure>⟧ }
{}
