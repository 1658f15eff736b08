// Paragraphs, measures and calls read from text, performed, and what they answer written as text.
//
// - `answering`: what is printed for an input;
// - `fault`: why an input is not of the format, and at which line;
// - `fields`: the fields of a line, one after another;
// - `head`: what stands before the calls: the text, the tables and the measure;
// - `lines`: an input as lines;
// - `numbers`: single fields: whole numbers and floats;
// - `performing`: an entry opened, and the calls performed on it;
// - `rows`: single lines of the head;
// - `seen`: a line as a person sees it;
// - `steps`: the lines of calls;
// - `width_text`: widths as text;
// - `written`: what is written for each answer.
#![tactic(auto)]

mod answering;
mod fault;
mod fields;
mod head;
mod lines;
mod numbers;
mod performing;
mod rows;
mod seen;
mod steps;
mod width_text;
mod written;

pub use answering::answer;
pub use fault::{Choices, FieldCause, InputFault, LineCause, LineFault};
