ghost use Rattle.std.specs.Prelude.{◌≡◌};
ghost use Rattle.pungi_world.specs.declared.halt.Halt.TheVariants.{Memory as HaltMemory};

use pungi_base::Memory;

/// Why a run goes no further.
#[derive(Clone, Copy, Debug, PartialEq, Eq)]
pub enum Halt {
    /// A pointer is `NULL` where it may not be, or an unset content is read.
    Stopped,
    /// The next choice is missing, or isn't accepted here.
    NeedsChoice,
    /// Memory ran out.
    Memory,
}

impl From<Memory> for Halt {
    ghost from_gives = { λ _ h. h ≡ HaltMemory };

    fn from(_: Memory) -> Self {
        Halt::Memory
    }
}
