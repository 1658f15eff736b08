// A glyph as a paragraph's tables hold it, and the ranges of its fields.
#![tactic(auto)]

pub mod glyph;
pub mod ranges;
