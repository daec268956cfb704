ghost use Rattle.std.specs.Prelude.{◌≡◌};
ghost use Rattle.pungi_parse.specs.declared.fault.ParseFault.TheVariants.{Memory as ParseMemory};

use pungi_base::{Memory, Pos};
use std::alloc::{AllocError, AllocFailed};
use thiserror::Error;

/// Why tokens have no syntax tree, and where.
#[derive(Debug, Drop, Error)]
pub enum ParseFault {
    /// Memory ran out.
    #[error("out of memory")]
    Memory,
    /// A token after which more than 64 brackets are open.
    #[error("{0}: too deep")]
    Deep(Pos),
    /// The first token after the longest front of the tokens that is a file (C11 6.9).
    #[error("{0}: not a unit")]
    NotAUnit(Pos),
}

impl From<AllocError> for ParseFault {
    ghost from_gives = { λ _ e. e ≡ ParseMemory };

    fn from(_: AllocError) -> Self {
        ParseFault::Memory
    }
}

impl<T: Drop> From<AllocFailed<T>> for ParseFault {
    ghost from_gives = { λ _ e. e ≡ ParseMemory };

    fn from(_: AllocFailed<T>) -> Self {
        ParseFault::Memory
    }
}

impl From<Memory> for ParseFault {
    ghost from_gives = { λ _ e. e ≡ ParseMemory };

    fn from(_: Memory) -> Self {
        ParseFault::Memory
    }
}
