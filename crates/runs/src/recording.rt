// How an answer is recorded.
ghost use Rattle.runs.specs.Events.{ByCall, ReadOff, answer_of};
ghost use Rattle.runs.specs.declared.fault.RunFault.TheVariants.{Memory};
ghost use Rattle.std.specs.Prelude.{◌≡◌, take, IfOk, MatchResult};

use crate::event::{Event, LaidLine};
use crate::fault::RunFault;
use entry::fault::EntryFault;
use layout::line::VisualLine;
use std::alloc::{AllocError, Global};
use walk::line::VlRange;

// The first n of some items, or all where there are fewer: one line, for which a crate to share it with others would be no plainer.
fn first_places<T: Copy>(heap: Global, items: &[T], n: usize) -> Result<Vec<T>, AllocError>
    ensures { IfOk result (λ v. v.items ≡ take n items.now) }
{
    Vec::from_slice(heap, &items[..n.min(items.len())])
}

/// Records what a call that lays lines answered: of a line, what it wrote into the two lists, too.
pub(crate) fn record<W: Copy>(
    heap: Global,
    answer: Result<VisualLine<W>, EntryFault>,
    ranges: &[VlRange],
    order: &[usize],
) -> Result<Event<W>, RunFault>
    requires { ByCall answer }
    ensures { MatchResult result (λ event. ReadOff answer ranges.now order.now (answer_of event)) (λ e. e ≡ Memory) }
{
    match answer {
        Ok(line) => {
            let ranges = first_places(heap, ranges, line.ranges)?;
            let order = first_places(heap, order, line.ranges)?;
            Ok(Event::Laid(LaidLine {
                ranges,
                order,
                line,
            }))
        }
        Err(EntryFault::Call(fault)) => Ok(Event::Refused(fault)),
        Err(EntryFault::Tables(_)) => unreachable(),
    }
}
