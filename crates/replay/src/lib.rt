// Stored answers, replayed: each line of standard input has what was asked and what was answered, and is compared with what is answered here.
//
// - `numbers`: the numbers of a line;
// - `replaying`: the lines, one after another;
// - `tally`: how many lines there are, and how many of them differ.
#![tactic(auto)]

mod numbers;
mod replaying;
mod tally;

pub use numbers::read_numbers;
pub use replaying::replay;
pub use tally::Tally;
