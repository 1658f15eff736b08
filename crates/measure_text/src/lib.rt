// Measures by their names in text, as `points 12.5` or `cells tracking 2 tracking 1`.
#![tactic(auto)]

pub mod lawless;
pub mod named;
pub mod pile;
pub mod piling;
mod words;
