ghost use Rattle.std.specs.Prelude.{◌^◌, ◌<◌, ◌+◌, length, IfOk};
ghost use Rattle.pungi_world.specs.Counts.{AreWithin};
ghost use Rattle.pungi_world.specs.Effects.{Gives};
ghost use Rattle.pungi_world.specs.Calls.{call_effect};
ghost use Rattle.pungi_world.specs.Follows.{Follows};

use crate::calls::call;
use crate::{ApiCall, Effect, Halt, World};
use pungi_base::Choice;

impl World {
    /// Does one call of the API (Python/C API Reference Manual 3.11). `Stopped` where an object or a text that the call
    /// needs is `NULL`, and `NeedsChoice` where the next choice is missing or the call doesn't answer so. After either
    /// the world may be partly changed.
    pub fn apply(&mut self, api: &ApiCall, choices: &[Choice]) -> Result<Effect, Halt>
        requires few { length api.now.args.now < 2 ^ 60 }
        requires within { AreWithin (2 ^ 61) self.old }
        ensures effect { Gives result self.new (call_effect self.old api.now.signature.now api.now.args.now
            choices.now) }
        ensures follows { IfOk result (λ effect. Follows self.old self.new effect.used 0
            (length api.now.args.now + 1)) }
    {
        Ok(call(self, api.signature, api.args, choices)?)
    }
}
