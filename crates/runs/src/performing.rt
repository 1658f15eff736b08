// How calls are performed on an entry and recorded, one after another.
ghost use Rattle.runs.specs.Events.{Performs, answer_of};
ghost use Rattle.runs.specs.Performing.{answers_on, called_on};
ghost use Rattle.runs.specs.declared.fault.RunFault.TheVariants.{Memory};
ghost use Rattle.std.specs.Prelude.{◌≡◌, map, MatchResult};

use crate::event::Event;
use crate::fault::RunFault;
use crate::recording::record;
use entry::call::Call;
use entry::entry::Entry;
use measure::measure::Measure;
use paragraph::paragraph::Paragraph;
use std::alloc::Global;
use visual_order::order_laws;
use walk::line::VlRange;

// The two lists go side by side, as in the entry's own lines.

/// Performs a call and records its answer.
pub(crate) fn perform<M: Measure>(
    heap: Global,
    opened: &mut Entry<M>,
    paragraph: &Paragraph,
    call: Call<M::Width>,
    ranges: &mut [VlRange],
    order: &mut [usize],
) -> Result<Event<M::Width>, RunFault>
    ensures { MatchResult result (Performs (called_on M.Measure opened.old paragraph.now ranges.old order.old call) opened.old opened.new) (λ e. e ≡ Memory) }
{
    order_laws();
    match call {
        Call::Take { width } => {
            let answer = opened.take(paragraph, width, ranges, order);
            record(heap, answer, ranges, order)
        }
        Call::Close { ellipsize, width } => {
            let answer = opened.close(paragraph, ellipsize, width, ranges, order);
            record(heap, answer, ranges, order)
        }
        Call::Count => Ok(Event::Counted(opened.tally())),
    }
}

/// Performs a script of calls and records every answer.
pub(crate) fn perform_all<M: Measure>(
    heap: Global,
    opened: &mut Entry<M>,
    paragraph: &Paragraph,
    script: &[Call<M::Width>],
    ranges: &mut [VlRange],
    order: &mut [usize],
) -> Result<Vec<Event<M::Width>>, RunFault>
    ensures { MatchResult result (λ log. map answer_of log.items ≡ answers_on M.Measure opened.old paragraph.now ranges.old order.old script.now) (λ e. e ≡ Memory) }
{
    let mut log = Vec::new(heap);
    for call in script {
        let event = perform(heap, opened, paragraph, *call, ranges, order)?;
        log.push(event)?;
    }
    Ok(log)
}
