ghost use Rattle.std.specs.Prelude.{◌≡◌};
ghost use Rattle.pungi_shape.specs.declared.graph_fault.GraphFault.TheVariants.{Memory as OutOfMemory};

use std::alloc::{AllocError, AllocFailed};
use thiserror::Error;

/// Why a code has no affine program.
#[derive(Clone, Copy, Debug, PartialEq, Eq, Error)]
pub enum GraphFault {
    /// It has over 8,192 places, or a place with over 256 coordinates.
    #[error("too many shapes")]
    Shapes,
    /// Memory ran out.
    #[error("out of memory")]
    Memory,
}

impl From<AllocError> for GraphFault {
    ghost from_gives = { λ _ e. e ≡ OutOfMemory };

    fn from(_: AllocError) -> Self {
        GraphFault::Memory
    }
}

impl<T: Drop> From<AllocFailed<T>> for GraphFault {
    ghost from_gives = { λ _ e. e ≡ OutOfMemory };

    fn from(_: AllocFailed<T>) -> Self {
        GraphFault::Memory
    }
}

impl From<pungi_base::Memory> for GraphFault {
    ghost from_gives = { λ _ e. e ≡ OutOfMemory };

    fn from(_: pungi_base::Memory) -> Self {
        GraphFault::Memory
    }
}
