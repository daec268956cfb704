use pungi_base::Memory;
use std::alloc::{AllocError, AllocFailed};
use thiserror::Error;

/// Why a text is no format. A place is that of a byte, counted from 0.
#[derive(Clone, Copy, Debug, PartialEq, Eq, Error)]
pub enum FormatFault {
    /// The byte is no unit of the subset, nor a mark that may stand there.
    #[error("unknown unit at byte {0}")]
    UnknownUnit(usize),
    /// The closing bracket closes no open one, or the opening bracket is the last one open at the end.
    #[error("unbalanced bracket at byte {0}")]
    Unbalanced(usize),
    /// The bar is the second one.
    #[error("second bar at byte {0}")]
    Order(usize),
    /// Want of memory.
    #[error("out of memory")]
    Memory,
}

impl From<Memory> for FormatFault {
    ghost use Rattle.std.specs.Prelude.{◌≡◌};
    ghost use Rattle.pungi_format.specs.declared.format_fault.FormatFault.TheVariants as fault;

    ghost from_gives = { λ _ f. f ≡ fault.Memory };

    fn from(_: Memory) -> Self {
        FormatFault::Memory
    }
}

impl From<AllocError> for FormatFault {
    ghost use Rattle.std.specs.Prelude.{◌≡◌};
    ghost use Rattle.pungi_format.specs.declared.format_fault.FormatFault.TheVariants as fault;

    ghost from_gives = { λ _ f. f ≡ fault.Memory };

    fn from(_: AllocError) -> Self {
        FormatFault::Memory
    }
}

impl<T: Drop> From<AllocFailed<T>> for FormatFault {
    ghost use Rattle.std.specs.Prelude.{◌≡◌};
    ghost use Rattle.pungi_format.specs.declared.format_fault.FormatFault.TheVariants as fault;

    ghost from_gives = { λ _ f. f ≡ fault.Memory };

    fn from(_: AllocFailed<T>) -> Self {
        FormatFault::Memory
    }
}
