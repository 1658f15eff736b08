// The visual order of a line of elements that have embedding levels: rule L2 of UAX #9, the Unicode bidirectional algorithm.
//
// - `leveled`: what tells a level, the trait that everything here is written over;
// - `character`: a character of a text by its bytes and its level;
// - `fault`: why no order is written;
// - `level_bounds`: the highest level and the lowest odd one;
// - `runs`: one round of the rule, at one level;
// - `reordering`: the public call;
// - `laws`: what holds of the rule itself.
#![tactic(auto)]

mod character;
mod fault;
mod laws;
mod level_bounds;
mod leveled;
mod reordering;
mod runs;

pub use character::Character;
pub use fault::{OrderCause, OrderFault, OrderTable};
pub use laws::order_laws;
pub use leveled::Leveled;
pub use refusals::Cause;
pub use reordering::reorder;
