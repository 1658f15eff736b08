// Whole runs: any script of calls on a newly opened entry.
ghost use Rattle.runs.specs.Events.{answer_of};
ghost use Rattle.runs.specs.Laws.{LawfulRun};
ghost use Rattle.runs.specs.Performing.{RunBy, opened_answers, text_on};
ghost use Rattle.runs.specs.Widths.{MeasuredRun};
ghost use Rattle.std.specs.Prelude.{◌≡◌, map, IfOk};

use crate::event::Event;
use crate::fault::RunFault;
use crate::laws::{runs_are_exact, runs_are_lawful};
use crate::opening::Opening;
use crate::performing::perform_all;
use entry::call::Call;
use entry::entry::Entry;
use measure::exact::ExactMeasure;
use measure::measure::Measure;
use paragraph::paragraph::Paragraph;
use std::alloc::Global;
use walk::line::VlRange;

/// Opens an entry and performs a script of calls on it, and records what each one answers. The calls are lent a list of `range_places` for ranges and
/// one of `order_places` for their order.
///
/// Whatever the script is, the record obeys the law of runs.
pub fn run<M: Measure + Drop>(
    heap: Global,
    on: Opening<M>,
    script: &[Call<M::Width>],
    range_places: usize,
    order_places: usize,
) -> Result<Vec<Event<M::Width>>, RunFault>
    ensures tables { RunBy (text_on on) on.tables.ellipsis.items result }
    ensures exact { IfOk result (λ log. map answer_of log.items ≡ opened_answers M.Measure on range_places order_places script.now) }
    ensures lawful { IfOk result (λ log. LawfulRun M.Measure on.measure (text_on on) on.tables.ellipsis.items range_places order_places script.now (map answer_of log.items)) }
{
    runs_are_lawful(&on.measure);
    let mut paragraph = Paragraph::empty(heap);
    let mut opened = Entry::open(&mut paragraph, on.tables, on.measure)?;
    let mut ranges = vec![in heap; VlRange::default(); range_places]?;
    let mut order = vec![in heap; 0; order_places]?;
    perform_all(
        heap,
        &mut opened,
        &paragraph,
        script,
        &mut ranges,
        &mut order,
    )
}

/// The same over an exact measure, where the record obeys the law of widths besides: a call of its own, since that law can only be said under this bound.
pub fn run_exact<M: ExactMeasure + Drop>(
    heap: Global,
    on: Opening<M>,
    script: &[Call<M::Width>],
    range_places: usize,
    order_places: usize,
) -> Result<Vec<Event<M::Width>>, RunFault>
    ensures tables { RunBy (text_on on) on.tables.ellipsis.items result }
    ensures exact { IfOk result (λ log. map answer_of log.items ≡ opened_answers M.Measure on range_places order_places script.now) }
    ensures lawful { IfOk result (λ log. LawfulRun M.Measure on.measure (text_on on) on.tables.ellipsis.items range_places order_places script.now (map answer_of log.items)) }
    ensures measured { IfOk result (λ log. MeasuredRun M.ExactMeasure.number (M.ExactMeasure.number_of_glyph on.measure) (text_on on) on.tables.ellipsis.items script.now (map answer_of log.items)) }
{
    runs_are_exact(&on.measure);
    run(heap, on, script, range_places, order_places)
}
