ghost use Rattle.std.specs.Prelude.{◌≡◌, ℕ, ℤ, List};
ghost use Rattle.pungi_domain.specs.declared.domain_fault.DomainFault.TheVariants.{Range as LargeRow};
ghost use Rattle.pungi_fixpoint.specs.declared.fix_fault.FixFault.TheVariants.{Memory as OutOfMemory, NotSafe, Range};

use pungi_base::Seq;
use pungi_domain::DomainFault;
use std::alloc::{AllocError, AllocFailed};
use thiserror::Error;

/// Why an affine program got no annotation.
#[derive(Debug, Drop, Error)]
pub enum FixFault {
    /// An edge from this place has a duty that fails.
    #[error("a duty fails at place {0}")]
    NotSafe(u32),
    /// A step over an edge from this place was large. Holds a scaled row of the large span, divided by the common
    /// divisor of its entries.
    #[error("an entry of a scaled row is over 2^31 at place {0}")]
    Range(u32, Seq<i128>),
    /// Memory ran out.
    #[error("out of memory")]
    Memory,
}

impl From<AllocError> for FixFault {
    ghost from_gives = { λ _ e. e ≡ OutOfMemory };

    fn from(_: AllocError) -> Self {
        FixFault::Memory
    }
}

impl<T: Drop> From<AllocFailed<T>> for FixFault {
    ghost from_gives = { λ _ e. e ≡ OutOfMemory };

    fn from(_: AllocFailed<T>) -> Self {
        FixFault::Memory
    }
}

impl From<pungi_base::Memory> for FixFault {
    ghost from_gives = { λ _ e. e ≡ OutOfMemory };

    fn from(_: pungi_base::Memory) -> Self {
        FixFault::Memory
    }
}

/// A fault of the domain at an edge from this place.
pub(crate) fn fault_at(place: u32, fault: DomainFault) -> FixFault
    ensures safe { (k : ℕ) → result ≡ NotSafe k → ⊥ }
    ensures range { (k : ℕ) (row : List ℤ) → result ≡ Range k row → (k ≡ place) × (fault ≡ LargeRow row) }
{
    match fault {
        DomainFault::Range(row) => FixFault::Range(place, row),
        DomainFault::Memory => FixFault::Memory,
    }
}
