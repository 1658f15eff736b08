// What walks mean: laws above the definition of a walk, in the words of the subject. A law is a function's contract; the functions do nothing.
#![tactic(auto)]

ghost use Rattle.walk_laws.specs.Laws.{EveryWalk, EveryTake, EveryWidth, EveryEllipsis, EveryClosing, EveryTaking};

use measure::exact::ExactMeasure;
use measure::measure::Measure;

/// On any measure, lawless ones too: what a walk shows, by any rule, and that a walk which takes a line shows a glyph if one is ahead.
pub fn walks_are_lawful<M: Measure>(m: &M)
    ensures shows { EveryWalk M.Measure m.now }
    ensures takes { EveryTake M.Measure m.now }
{}

/// On an exact measure: how wide walks are, and when they are flagged.
pub fn walks_are_exact<M: ExactMeasure>(m: &M)
    ensures width { EveryWidth M.Measure m.now M.ExactMeasure.number (M.ExactMeasure.number_of_glyph m.now) }
    ensures ellipsis { EveryEllipsis M.Measure m.now M.ExactMeasure.number (M.ExactMeasure.number_of_glyph m.now) }
    ensures closing { EveryClosing M.Measure m.now M.ExactMeasure.number (M.ExactMeasure.number_of_glyph m.now) }
    ensures taking { EveryTaking M.Measure m.now M.ExactMeasure.number (M.ExactMeasure.number_of_glyph m.now) }
{
    m.exact();
}
