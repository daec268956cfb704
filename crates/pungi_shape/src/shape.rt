ghost use Rattle.std.specs.Prelude.{◌≡◌, IfOk};
ghost use Rattle.pungi_shape.specs.Scenes.{is_made};

use crate::{Holding, Tracked};
use pungi_base::{Memory, Seq};
use std::alloc::Global;

/// What is known at a point of a code of what its holders hold. Two holders hold the same object for sure where they
/// hold one token.
pub struct Shape {
    /// The parameters' values at entry.
    pub entry: Seq<Holding>,
    /// The variables of the code, by number.
    pub vars: Seq<Holding>,
    /// The static objects that the code names, in the order of their numbers, each with its token.
    pub statics: Seq<(u32, Holding)>,
    /// The value that is being returned.
    pub returned: Holding,
    /// The slots that are tracked: globals by name, then fields by the token of their object, tag and name.
    pub slots: Seq<Tracked>,
    /// Which tokens are objects that were made in this run.
    pub made: Seq<bool>,
}

impl Drop for Shape {
    fn drop(self) {
        let Shape {
            entry: _,
            vars: _,
            statics: _,
            returned: _,
            slots: _,
            made: _,
        } = self;
    }
}

impl Shape {
    /// The same shape.
    pub fn copy(&self, alloc: Global) -> Result<Shape, Memory>
        ensures { IfOk result (λ s. s ≡ self.now) }
    {
        let entry = self.entry.copy(alloc)?;
        let vars = self.vars.copy(alloc)?;
        let statics = self.statics.copy(alloc)?;
        let slots = self.slots.copy(alloc)?;
        let made = self.made.copy(alloc)?;
        Ok(Shape {
            entry,
            vars,
            statics,
            returned: self.returned,
            slots,
            made,
        })
    }

    /// Whether a token is an object that was made in this run.
    pub(crate) fn is_made(&self, t: u32) -> bool
        ensures { result ≡ is_made self.now t }
    {
        let made = self.made.as_slice();
        (t as usize) < made.len() && made[t as usize]
    }
}
