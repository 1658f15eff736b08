// The law of every run of calls on one entry, above the definition of what each call answers. A law is a function's contract; the functions do nothing.
ghost use Rattle.runs.specs.Laws.{EveryRun, EveryStep};
ghost use Rattle.runs.specs.Standing.{EveryStart};
ghost use Rattle.runs.specs.Widths.{EveryMeasuredRun, EveryMeasuredStep};

use measure::exact::ExactMeasure;
use measure::measure::Measure;
use visual_order::order_laws;

/// On any measure, lawless ones too: every run of calls on a newly opened entry obeys the law, and so do calls that are made one by one.
pub fn runs_are_lawful<M: Measure>(m: &M)
    ensures start { EveryStart M.Width }
    ensures step { EveryStep M.Measure m.now }
    ensures run { EveryRun M.Measure m.now }
{
    order_laws();
}

/// On an exact measure: when the lines of a run hold the ellipsis, and how wide they are.
pub fn runs_are_exact<M: ExactMeasure>(m: &M)
    ensures step { EveryMeasuredStep M.Measure m.now M.ExactMeasure.number (M.ExactMeasure.number_of_glyph m.now) }
    ensures run { EveryMeasuredRun M.Measure m.now M.ExactMeasure.number (M.ExactMeasure.number_of_glyph m.now) }
{
    m.exact();
}
