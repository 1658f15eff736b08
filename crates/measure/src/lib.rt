// Measures: what asks a glyph's width, and what may be done with widths.
#![tactic(auto)]

pub mod cells;
pub mod counting;
pub mod exact;
pub mod layer;
pub mod layered;
pub mod measure;
pub mod points;
pub mod rows;
pub mod settings;
pub mod tracking;
pub mod units;

pub use refusals::Cause;
