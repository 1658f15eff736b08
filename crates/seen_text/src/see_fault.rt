// Why a text is not seen.
ghost use Rattle.seen_text.specs.declared.see_fault.SeeFault.TheVariants.{Memory, Refused};
ghost use Rattle.std.specs.Prelude.{◌≡◌};

use std::alloc::AllocError;
use visual_order::OrderFault;

/// Why a text is not seen.
#[derive(Drop)]
pub enum SeeFault {
    /// There are not as many levels as characters.
    CountsDiffer { characters: usize, levels: usize },
    /// There are more characters than a line may have.
    Refused(OrderFault),
    /// There is no memory.
    Memory,
}

impl From<AllocError> for SeeFault {
    ghost from_gives = { λ _ r. r ≡ Memory };

    fn from(_: AllocError) -> SeeFault {
        SeeFault::Memory
    }
}

impl From<OrderFault> for SeeFault {
    ghost from_gives = { λ fault r. r ≡ Refused fault };

    fn from(fault: OrderFault) -> SeeFault {
        SeeFault::Refused(fault)
    }
}
