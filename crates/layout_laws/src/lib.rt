// What closing lines mean: laws above their definition, in the words of the subject. A law is a function's contract; the functions do nothing.
#![tactic(auto)]

ghost use Rattle.layout_laws.specs.Laws.{EveryEnding, EveryFittingLine, EveryLine, EveryLineWidth, EveryTakenLine, EveryWholeLine};
ghost use Rattle.layout_laws.specs.Worked.{Worked};

use measure::cells::Cells;
use measure::exact::ExactMeasure;
use measure::measure::Measure;

/// On any measure, lawless ones too: what a closing line shows and hides, in every mode, with a width and without; that the ellipsis stands only where
/// there is a mode and a width; what a line shows that is taken; and where a forward walk ends, which is where Middle's second walk starts.
pub fn lines_are_lawful<M: Measure>(m: &M)
    ensures closing { EveryLine M.Measure m.now }
    ensures whole { EveryWholeLine M.Measure m.now }
    ensures taken { EveryTakenLine M.Measure m.now }
    ensures ending { EveryEnding M.Measure m.now }
{}

/// On an exact measure: how wide a closing line is, and, given a mode and a width, when the ellipsis stands and by how much the line may pass the width.
pub fn lines_are_exact<M: ExactMeasure>(m: &M)
    ensures width { EveryLineWidth M.Measure m.now M.ExactMeasure.number (M.ExactMeasure.number_of_glyph m.now) }
    ensures fitting { EveryFittingLine M.Measure m.now M.ExactMeasure.number (M.ExactMeasure.number_of_glyph m.now) }
{
    m.exact();
}

/// The lines of small paragraphs whose glyphs are one cell wide, worked out.
pub fn worked_lines()
    ensures { Worked ⟦<Cells as Measure>⟧ }
{}
