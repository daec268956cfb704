ghost use Rattle.std.specs.Prelude.{◌≡◌};
ghost use Rattle.pungi_lex.specs.declared.macro_fault.MacroFault.TheVariants.{Memory as MacroMemory};

use pungi_base::{Memory, Pos};
use std::alloc::{AllocError, AllocFailed};
use thiserror::Error;

/// Why tokens can't be expanded, and where.
#[derive(Debug, Drop, Error)]
pub enum MacroFault {
    /// Memory ran out.
    #[error("out of memory")]
    Memory,
    /// A directive that is neither an inclusion nor the definition of a word, at its `#` (C11 6.10); or a `##` in a
    /// body, there (C11 6.10.3.3).
    #[error("{0}: directive")]
    Directive(Pos),
    /// The definition of a macro with parameters, at its name (C11 6.10.3).
    #[error("{0}: function macro")]
    FunctionMacro(Pos),
    /// A second definition with another body, or one of a predefined macro, at its name (C11 6.10.3).
    #[error("{0}: redefined")]
    Redefined(Pos),
    /// A word with which tokens and replacements together pass 262,144.
    #[error("{0}: too many tokens")]
    TooManyTokens(Pos),
}

impl From<AllocError> for MacroFault {
    ghost from_gives = { λ _ e. e ≡ MacroMemory };

    fn from(_: AllocError) -> Self {
        MacroFault::Memory
    }
}

impl<T: Drop> From<AllocFailed<T>> for MacroFault {
    ghost from_gives = { λ _ e. e ≡ MacroMemory };

    fn from(_: AllocFailed<T>) -> Self {
        MacroFault::Memory
    }
}

impl From<Memory> for MacroFault {
    ghost from_gives = { λ _ e. e ≡ MacroMemory };

    fn from(_: Memory) -> Self {
        MacroFault::Memory
    }
}
