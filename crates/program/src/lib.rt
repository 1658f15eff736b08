// What a program that answers an input does around its answer: it reads all of standard input, and prints the answer, or why there is none.
//
// - `fault`: why an input gets no answer;
// - `running`: reading and printing.
#![tactic(auto)]

mod fault;
mod running;

pub use fault::InputFault;
pub use running::run;
