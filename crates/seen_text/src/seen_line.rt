// The visual order of a text, and the text in that order.
ghost use Rattle.std.specs.Prelude.{◌≡◌, ℕ, ◌<◌, map, length, IfOk, string_bytes, slice_index};
ghost use Rattle.seen_text.specs.Seen.{characters_of, level_of, seen_bytes};
ghost use Rattle.seen_text.specs.Sees.{Orders, Sees};
ghost use Rattle.std.specs.Str.{chars};
ghost use Rattle.visual_order.specs.VisualOrder.{visual};

use crate::characters::{characters, count_of};
use crate::see_fault::SeeFault;
use std::alloc::{AllocError, Global};
use visual_order::{Character, OrderFault, reorder};

/// A text as it is seen: the indices of its characters from left to right, and the characters in that order.
#[derive(Drop)]
pub struct Seen {
    pub order: Vec<usize>,
    pub text: String,
}

// The text with its characters in the given order.
fn in_order(
    heap: Global,
    text: &str,
    characters: &[Character],
    order: &[usize],
) -> Result<String, AllocError>
    requires spelt { characters.now ≡ characters_of 0 (chars text.now) (map level_of characters.now) }
    requires indices { (p : ℕ) → p < length order.now → slice_index order.now p < length characters.now }
    ensures { IfOk result (λ s. string_bytes s ≡ seen_bytes (chars text.now) order.now) }
{
    let mut seen = String::new(heap);
    for i in order {
        let c = characters[*i];
        seen.push_str(&text[c.start..c.start + c.len])?;
    }
    Ok(seen)
}

// The indices of the characters in visual order, or the refusal of the order.
fn visual_indices(
    heap: Global,
    characters: &[Character],
) -> Result<Result<Vec<usize>, OrderFault>, AllocError>
    ensures { IfOk result (Orders (map level_of characters.now)) }
{
    let mut order = vec![in heap; 0; characters.len()]?;
    Ok(reorder(characters, &mut order).map(|()| order))
}

/// The text as seen, from a level for each of its characters.
#[tactic(auto, using(crate::proofs::Spelt::levels_are))]
pub fn see(heap: Global, text: &str, levels: &[u8]) -> Result<Seen, SeeFault>
    ensures { Sees text.now levels.now result }
{
    let count = count_of(text);
    if count != levels.len() {
        return Err(SeeFault::CountsDiffer {
            characters: count,
            levels: levels.len(),
        });
    }
    let characters = characters(heap, text, levels)?;
    let order = visual_indices(heap, &characters)??;
    let text = in_order(heap, text, &characters, &order)?;
    Ok(Seen { order, text })
}
