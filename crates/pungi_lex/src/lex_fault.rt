ghost use Rattle.std.specs.Prelude.{◌≡◌};
ghost use Rattle.pungi_lex.specs.declared.lex_fault.LexFault.TheVariants.{Memory as LexMemory};

use pungi_base::{Memory, Pos};
use std::alloc::{AllocError, AllocFailed};
use thiserror::Error;

/// Why a text has no tokens, and where.
#[derive(Debug, Drop, Error)]
pub enum LexFault {
    /// Memory ran out.
    #[error("out of memory")]
    Memory,
    /// A byte that begins no token.
    #[error("{0}: no token")]
    Byte(Pos),
    /// A comment without its end, at its `/*` (C11 6.4.9).
    #[error("{0}: open comment")]
    OpenComment(Pos),
    /// A string literal without its end on its line, at its quote (C11 6.4.5).
    #[error("{0}: open text")]
    OpenText(Pos),
    /// A number's spelling that is no integer or floating constant, or an integer constant past 2^127 - 1
    /// (C11 6.4.4, 6.4.8); or a `'` that begins no character constant of one byte (C11 6.4.4.4).
    #[error("{0}: no number")]
    Number(Pos),
}

impl From<AllocError> for LexFault {
    ghost from_gives = { λ _ e. e ≡ LexMemory };

    fn from(_: AllocError) -> Self {
        LexFault::Memory
    }
}

impl<T: Drop> From<AllocFailed<T>> for LexFault {
    ghost from_gives = { λ _ e. e ≡ LexMemory };

    fn from(_: AllocFailed<T>) -> Self {
        LexFault::Memory
    }
}

impl From<Memory> for LexFault {
    ghost from_gives = { λ _ e. e ≡ LexMemory };

    fn from(_: Memory) -> Self {
        LexFault::Memory
    }
}
