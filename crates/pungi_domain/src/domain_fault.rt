ghost use Rattle.std.specs.Prelude.{◌≡◌};
ghost use Rattle.pungi_domain.specs.declared.domain_fault.DomainFault.TheVariants.{Memory as OutOfMemory};

use pungi_base::Seq;
use std::alloc::{AllocError, AllocFailed};
use thiserror::Error;

/// Why a call on a domain gave no value.
#[derive(Debug, Drop, Error)]
pub enum DomainFault {
    /// An entry of a scaled row would be over 2^31 in absolute value. Holds a scaled row of that span, divided by the
    /// common divisor of its entries.
    #[error("an entry of a scaled row is over 2^31")]
    Range(Seq<i128>),
    /// Memory ran out.
    #[error("out of memory")]
    Memory,
}

impl From<AllocError> for DomainFault {
    ghost from_gives = { λ _ e. e ≡ OutOfMemory };

    fn from(_: AllocError) -> Self {
        DomainFault::Memory
    }
}

impl<T: Drop> From<AllocFailed<T>> for DomainFault {
    ghost from_gives = { λ _ e. e ≡ OutOfMemory };

    fn from(_: AllocFailed<T>) -> Self {
        DomainFault::Memory
    }
}

impl From<pungi_base::Memory> for DomainFault {
    ghost from_gives = { λ _ e. e ≡ OutOfMemory };

    fn from(_: pungi_base::Memory) -> Self {
        DomainFault::Memory
    }
}
