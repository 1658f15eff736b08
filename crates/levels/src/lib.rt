// Levels of characters after rule L1 of the bidirectional algorithm (UAX #9).
#![tactic(auto)]

pub mod adjust;
pub mod classes;
pub mod fault;
mod scan;
mod tables;

pub use adjust::adjust_levels;
pub use classes::BidiClass;
pub use fault::{ClassCause, ClassFault, ClassTable};
pub use refusals::Cause;
