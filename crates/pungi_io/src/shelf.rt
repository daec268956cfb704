ghost use Rattle.std.specs.Prelude.{◌≡◌, ℕ, ◌≤◌, ◌<◌, ◌∷◌, [], ◌++◌, List, length, OnOk, OnErr, IfOk, Option, Some};
ghost use Rattle.std.specs.Io.KnownBytes.{ReadConsumes};
ghost use Rattle.pungi_io.specs.OpenedText.{Opened, just_opened};
ghost use Rattle.pungi_io.specs.Shelf.{Rose, Opens, Reads};
ghost use Rattle.pungi_io.specs.declared.shelf.OpenFault.TheVariants.{Memory as OpenMemory};

use std::alloc::{AllocError, AllocFailed, Global};

/// A call on the outside failed.
#[derive(Clone, Copy, Debug, PartialEq, Eq)]
pub struct Failed;

/// Why a text was not opened.
#[derive(Clone, Copy, Debug, PartialEq, Eq)]
pub enum OpenFault {
    /// The shelf could not open it.
    Failed,
    /// Memory ran out.
    Memory,
}

impl From<AllocError> for OpenFault {
    ghost from_gives = { λ _ e. e ≡ OpenMemory };

    fn from(_: AllocError) -> Self {
        OpenFault::Memory
    }
}

impl<T: Drop> From<AllocFailed<T>> for OpenFault {
    ghost from_gives = { λ _ e. e ≡ OpenMemory };

    fn from(_: AllocFailed<T>) -> Self {
        OpenFault::Memory
    }
}

/// Where texts are read from, by name.
pub trait Shelf {
    /// The texts by name, where they are known. They never change.
    ghost texts: { Self → Option (List ℕ → Option (List ℕ)) };

    /// What is left of the opened text, where it is known.
    ghost rest: { Self → Option (List ℕ) };

    /// Each text that was opened so far, in order.
    ghost opened: { Self → List Opened };

    /// The names that `open` was given so far, also where it opened nothing.
    ghost names_opened: { Self → List (List ℕ) };

    /// How often a call failed. At most 2^64 - 1.
    ghost faults: { Self → ℕ };

    /// Opens the text of a name.
    fn open(&mut self, alloc: Global, name: &str) -> Result<(), OpenFault>
        ensures ok { OnOk result (Opens (texts self.old) name.now (rest self.new)
            × (opened self.new ≡ opened self.old ++ just_opened name.now ∷ [])) }
        ensures err { OnErr result ((rest self.new ≡ rest self.old) × (opened self.new ≡ opened self.old)) }
        ensures names_opened { (result ≡ Err OpenFault.Memory → ⊥)
            → names_opened self.new ≡ names_opened self.old ++ name.now ∷ [] }
        ensures memory { result ≡ Err OpenFault.Memory → names_opened self.new ≡ names_opened self.old }
        ensures texts { texts self.new ≡ texts self.old }
        ensures steady { (result ≡ Err OpenFault.Failed → ⊥) → faults self.new ≡ faults self.old }
        ensures failed { result ≡ Err OpenFault.Failed → Rose (faults self.old) (faults self.new) };

    /// Copies the next bytes into the front of the buffer, and returns how many. None where the buffer has room means
    /// that nothing is left.
    fn read(&mut self, buf: &mut [u8]) -> Result<usize, Failed>
        ensures within { IfOk result (λ count. count ≤ length buf.new) }
        ensures bytes { ReadConsumes (rest self.old) (rest self.new) result buf.new }
        ensures opened { Reads (opened self.old) (opened self.new) result buf.new }
        ensures end { IfOk result (λ count. count ≡ 0 → 0 < length buf.new → rest self.new ≡ Some []) }
        ensures names_opened { names_opened self.new ≡ names_opened self.old }
        ensures texts { texts self.new ≡ texts self.old }
        ensures steady { OnOk result (faults self.new ≡ faults self.old) }
        ensures failed { OnErr result (Rose (faults self.old) (faults self.new)) };
}
