// One round of rule L2: at one level, each longest run of elements at that level or higher is reversed.
//
// The rounds go from the highest level down, and a round moves elements only inside of runs that the next round takes whole.
// So at each round the places at the level or higher are those of the elements themselves: which places make a run is
// read off the elements in their own order, and not through the line.
ghost use Rattle.std.specs.Prelude.{◌≡◌, ℕ, ◌<◌, ◌≤◌, true, false, [], map, length, slice_index};
ghost use Rattle.visual_order.specs.VisualOrder.{high, turned};

use crate::leveled::Leveled;

// Where the run of elements at the level or higher that begins at `start` ends.
fn run_end<E: Leveled>(elements: &[E], level: u8, start: usize) -> usize
    requires { start ≤ length elements.now }
    ensures after { (start ≤ result) × (result ≤ length elements.now) }
    ensures inside { (p : ℕ) → start ≤ p → p < result → high (map E.Leveled.depth elements.now) level p ≡ true }
    ensures stops { result < length elements.now → high (map E.Leveled.depth elements.now) level result ≡ false }
{
    // Over the indices: where text is nested, `position` takes up to twice as long.
    for end in start..elements.len() {
        if elements[end].level() < level {
            return end;
        }
    }
    elements.len()
}

// Reverses each longest run of elements at the level or higher in the line, whose places are at that level just where
// the elements are.
pub(crate) fn reverse_runs<E: Leveled>(elements: &[E], line: &mut [usize], level: u8)
    requires as_long { length line.old ≡ length elements.now }
    requires in_place { (p : ℕ) → p < length line.old → high (map E.Leveled.depth elements.now) level (slice_index line.old p) ≡ high (map E.Leveled.depth elements.now) level p }
    ensures { line.new ≡ turned (high (map E.Leveled.depth elements.now) level) [] line.old }
{
    let mut start = 0;
    // One pass by `enumerate` takes half as long again, and a `for` over `elements.split(..)` gets no proof, since its closure calls a bound's method.
    while start < line.len() {
        let end = run_end(elements, level, start);
        line[start..end].reverse();
        start = end + 1;
    }
}
