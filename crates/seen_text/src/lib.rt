// A text with a level for each of its characters, as it is seen: the characters in visual order.
//
// - `printing`: what is printed for an input;
// - `characters`: the characters of a text, by their bytes and levels;
// - `class_line`: a line of classes, for the level resets;
// - `format_fault`: why an input is not of the format;
// - `input`: an input, line by line;
// - `laws`: what holds of the format itself;
// - `levels_line`: a line of levels;
// - `numbers`: numbers in a line, written and read;
// - `resets`: the levels after the level resets;
// - `see_fault`: why a text is not seen;
// - `seen_line`: the visual order of a text, and the text in that order.
#![tactic(auto)]

mod characters;
mod class_line;
mod format_fault;
mod input;
mod laws;
mod levels_line;
mod numbers;
mod printing;
mod resets;
mod see_fault;
mod seen_line;

pub use class_line::ClassLine;
pub use format_fault::{FormatFault, InputFault};
pub use input::{Input, read_input};
pub use laws::format_laws;
pub use printing::answer;
pub use see_fault::SeeFault;
pub use seen_line::{Seen, see};
