// The public call: the visual order of a line, written to the caller's list.
ghost use Rattle.std.specs.Prelude.{◌≡◌, ℕ, ◌<◌, ◌≤◌, map, length, take, OnOk, slice_index};
ghost use Rattle.std.specs.List.{range_with_len};
ghost use Rattle.visual_order.specs.Laws.{Once, Pairs};
ghost use Rattle.visual_order.specs.Verdict.{after, verdict};
ghost use Rattle.visual_order.specs.VisualOrder.{visual};

use crate::fault::{OrderCause, OrderFault, OrderTable};
use crate::level_bounds::{highest_level, lowest_odd_level};
use crate::leveled::Leveled;
use crate::runs::reverse_runs;

// The most elements that a line may have.
const MOST_ELEMENTS: usize = 16384;

// Writes each index at its own place.
fn number_places(line: &mut [usize])
    ensures { line.new ≡ range_with_len 0 (length line.old) }
{
    for (i, place) in line.iter_mut().enumerate() {
        *place = i;
    }
}

// Writes the visual order of the elements to a line of the same length.
fn arrange<E: Leveled>(elements: &[E], line: &mut [usize])
    requires { length line.old ≡ length elements.now }
    ensures { line.new ≡ visual (map E.Leveled.depth elements.now) }
{
    number_places(line);
    let Some(top) = highest_level(elements) else {
        return;
    };
    let Some(low) = lowest_odd_level(elements, top) else {
        return;
    };
    for level in (low..=top).rev() {
        reverse_runs(elements, line, level);
    }
}

/// Writes the indices of the elements in visual order, the leftmost first, to the first places of `order`.
///
/// Of two elements, the first in the text is seen first exactly if the lowest level from the one to the other, both included,
/// is even. More than 16,384 elements are refused, and so is a list that is shorter than the elements.
pub fn reorder<E: Leveled>(elements: &[E], order: &mut [usize]) -> Result<(), OrderFault>
    ensures answer { result ≡ verdict (length elements.now) (length order.old) }
    ensures list { order.new ≡ after result (map E.Leveled.depth elements.now) order.old }
    ensures indices { OnOk result ((length elements.now ≤ length order.new) × ((p : ℕ) → p < length elements.now → slice_index order.new p < length elements.now)) }
    ensures once { OnOk result (Once (map E.Leveled.depth elements.now) (take (length elements.now) order.new)) }
    ensures pairs { OnOk result (Pairs (map E.Leveled.depth elements.now) (take (length elements.now) order.new)) }
{
    let n = elements.len();
    if n > MOST_ELEMENTS {
        return Err(OrderFault {
            cause: OrderCause::TooManyRows,
            row: MOST_ELEMENTS,
            table: OrderTable::Elements,
        });
    }
    let places = order.len();
    if places < n {
        return Err(OrderFault {
            cause: OrderCause::ListTooShort,
            row: places,
            table: OrderTable::Order,
        });
    }
    arrange(elements, &mut order[..n]);
    Ok(())
}
