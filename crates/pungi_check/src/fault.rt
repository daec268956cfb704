ghost use Rattle.std.specs.Prelude.{◌≡◌};
ghost use Rattle.pungi_check.specs.declared.fault.UnitFault.TheVariants.{Memory as UnitMemory};

use pungi_base::{Memory, Pos};
use std::alloc::{AllocError, AllocFailed};
use thiserror::Error;

/// Why a unit is refused, and the place of the later name. The first in the text is reported, and at one place the
/// earlier of these.
#[derive(Debug, Drop, Error)]
pub enum UnitFault {
    /// Memory ran out.
    #[error("out of memory")]
    Memory,
    /// A function, tag or type word is defined twice; a file-level name is used for two of function, variable and
    /// table; or what is defined has the name of a row or static (C11 6.7, 6.9).
    #[error("{0}: duplicate name")]
    DuplicateName(Pos),
    /// The 4,097th function definition.
    #[error("{0}: too many functions")]
    TooManyFunctions(Pos),
}

impl From<AllocError> for UnitFault {
    ghost from_gives = { λ _ e. e ≡ UnitMemory };

    fn from(_: AllocError) -> Self {
        UnitFault::Memory
    }
}

impl<T: Drop> From<AllocFailed<T>> for UnitFault {
    ghost from_gives = { λ _ e. e ≡ UnitMemory };

    fn from(_: AllocFailed<T>) -> Self {
        UnitFault::Memory
    }
}

impl From<Memory> for UnitFault {
    ghost from_gives = { λ _ e. e ≡ UnitMemory };

    fn from(_: Memory) -> Self {
        UnitFault::Memory
    }
}
