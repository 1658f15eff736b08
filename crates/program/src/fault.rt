// Why an input gets no answer.
ghost use Rattle.program.specs.Fault.{fault_bytes};
ghost use Rattle.program.specs.declared.fault.InputFault.TheVariants.{Memory};
ghost use Rattle.std.specs.Prelude.{◌≡◌};

use std::alloc::{AllocError, AllocFailed};
use std::fmt;

/// Why an input gets no answer: what is wrong with it, or that memory is wanting.
#[derive(Drop)]
pub enum InputFault<F> {
    /// It is not of the format.
    Format(F),
    /// There is no memory.
    Memory,
}

impl<F> From<AllocError> for InputFault<F> {
    ghost from_gives = { λ _ r. r ≡ Memory };

    fn from(_: AllocError) -> InputFault<F> {
        InputFault::Memory
    }
}

impl<F, T: Drop> From<AllocFailed<T>> for InputFault<F> {
    ghost from_gives = { λ _ r. r ≡ Memory };

    fn from(_: AllocFailed<T>) -> InputFault<F> {
        InputFault::Memory
    }
}

impl<F: fmt::Display> fmt::Display for InputFault<F> {
    ghost output = { fault_bytes F.output };

    fn fmt<W: fmt::Write>(&self, f: &mut fmt::Formatter<W>) -> fmt::Result {
        match self {
            InputFault::Format(fault) => write!(f, "{fault}"),
            InputFault::Memory => write!(f, "no memory"),
        }
    }
}
