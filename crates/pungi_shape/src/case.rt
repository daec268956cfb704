ghost use Rattle.std.specs.Prelude.{◌≡◌};

use crate::{Form, Scene};
use pungi_base::Seq;

/// Where a case leads.
#[derive(Clone, Copy)]
pub enum Onward {
    /// On within the instruction, with this outcome.
    Within(u32),
    /// To this instruction.
    LeadsTo(u32),
    /// Out of the function.
    Leaves,
}

/// A case of one part of an instruction.
pub struct Case {
    /// The vectors for which the case comes: each of these forms is 0.
    pub guard: Seq<Form>,
    /// What is held after it.
    pub scene: Scene,
    /// The variable that gets any number after it, if one does.
    pub freed: Option<u32>,
    pub onward: Onward,
}

impl Case {
    /// Its parts.
    pub(crate) fn into_parts(self) -> (Seq<Form>, Scene, Option<u32>, Onward)
        ensures { result ≡ (self.guard, self.scene, self.freed, self.onward) }
    {
        let Case {
            guard,
            scene,
            freed,
            onward,
        } = self;
        (guard, scene, freed, onward)
    }
}

impl Drop for Case {
    fn drop(self) {
        let Case {
            guard: _,
            scene: _,
            freed: _,
            onward: _,
        } = self;
    }
}
