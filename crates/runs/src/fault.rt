// Why there is no record of a run.
ghost use Rattle.runs.specs.declared.fault.RunFault.TheVariants.{Memory, NotOpened};
ghost use Rattle.std.specs.Prelude.{◌≡◌};

use entry::fault::EntryFault;
use std::alloc::{AllocError, AllocFailed};

#[derive(Clone, Copy, PartialEq, Eq, Debug)]
pub enum RunFault {
    /// The entry was not opened.
    NotOpened(EntryFault),
    /// There was no memory for the record.
    Memory,
}

impl From<EntryFault> for RunFault {
    ghost from_gives = { λ e r. r ≡ NotOpened e };

    fn from(e: EntryFault) -> RunFault {
        RunFault::NotOpened(e)
    }
}

impl From<AllocError> for RunFault {
    ghost from_gives = { λ _ r. r ≡ Memory };

    fn from(_e: AllocError) -> RunFault {
        RunFault::Memory
    }
}

impl<T: Drop> From<AllocFailed<T>> for RunFault {
    ghost from_gives = { λ _ r. r ≡ Memory };

    fn from(_e: AllocFailed<T>) -> RunFault {
        RunFault::Memory
    }
}
