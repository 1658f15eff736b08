// A refusal: what is wrong, at which row, and in which table. Each layer has causes and tables of its own; what a refusal holds and how it is
// printed is said here once.
//
// - `cause`: what a cause is, the trait;
// - `fault`: the refusal;
// - `unnamed`: the refusal without the name that its layer gives it.
#![tactic(auto)]

mod cause;
mod fault;
mod unnamed;

pub use cause::Cause;
pub use fault::Fault;
pub use unnamed::Unnamed;

#[cfg(test)]
mod tests;
