ghost use Rattle.std.specs.Prelude.{◌≡◌, ◌+◌, OnOk};

use pungi_base::Memory;
use pungi_types::ValueKind;
use std::alloc::Global;
use std::marker::Model;

/// The number of the next local of a function: how many there were so far, in force or not. Their kinds are kept by
/// number, so that there are no more locals than memory has place for.
#[derive(Drop)]
pub struct NextLocal {
    kinds: Vec<Option<ValueKind>>,
}

impl Model for NextLocal {
    ghost use Rattle.std.specs.Prelude.{ℕ, length};

    ghost Value = { ℕ };

    ghost view = { λ n. length n.kinds.items };
}

impl NextLocal {
    /// The number of the first local.
    pub fn new(alloc: Global) -> Self
        ensures { result ≡ 0 }
    {
        NextLocal {
            kinds: Vec::new(alloc),
        }
    }

    /// The number.
    pub fn number(&self) -> usize
        ensures { result ≡ self.now }
    {
        self.kinds.len()
    }

    /// A local of this kind has the number, and the next one has one more.
    pub fn pass(&mut self, kind: Option<ValueKind>) -> Result<(), Memory>
        ensures { OnOk result (self.new ≡ self.old + 1) }
    {
        self.kinds.push(kind)?;
        Ok(())
    }
}
