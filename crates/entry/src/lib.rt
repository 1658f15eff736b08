// Entries: a paragraph laid line by line, taken one after another and closed with a last one.
//
// - `entry`: the entry itself, its opening, its two calls that lay a line, and its tally;
// - `progress`: how far an entry has come, and how a line changes that;
// - `checks`: what is tested before a line is laid, in the order of the causes;
// - `lines`: the two kinds of lines, written to the caller's lists;
// - `order`: the visual order of a line's ranges;
// - `fault`: why a call is refused;
// - `call`: the calls as values.
#![tactic(auto)]

pub mod call;
mod checks;
pub mod entry;
pub mod fault;
mod lines;
mod order;
pub mod progress;

pub use refusals::Cause;
