ghost use Rattle.std.specs.Prelude.{◌≡◌};
ghost use Rattle.pungi_parse.specs.declared.stop.Stop.TheVariants as Stop;

use pungi_base::Memory;
use std::alloc::AllocFailed;

/// Why nothing was read.
#[derive(Clone, Copy, Debug, PartialEq, Eq)]
pub(crate) enum Stop {
    /// Want of memory.
    Memory,
    /// No tree of this kind stands at the front of the tokens.
    NothingRead,
}

impl From<Memory> for Stop {
    ghost from_gives = { λ _ e. e ≡ Stop.Memory };

    fn from(_: Memory) -> Self {
        Stop::Memory
    }
}

impl<T: Drop> From<AllocFailed<T>> for Stop {
    ghost from_gives = { λ _ e. e ≡ Stop.Memory };

    fn from(_: AllocFailed<T>) -> Self {
        Stop::Memory
    }
}
