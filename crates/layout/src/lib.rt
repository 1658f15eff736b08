// Closing lines: what is ahead of a position laid as one line, with an ellipsis where it does not fit.
//
// - `layout_line`: the line, mode by mode; `layout_middle`: the mode with two halves; `line`: what is asked for and told; `closing`: what it
//   goes by;
// - `ellipsis`: its range and its level; `elided`: the bytes that it stands for.
#![tactic(auto)]

mod closing;
pub mod elided;
pub mod ellipsis;
pub mod layout_line;
mod layout_middle;
pub mod line;
