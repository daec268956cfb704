ghost use Rattle.std.specs.Prelude.{◌≡◌, IfOk};
ghost use Rattle.pungi_world.specs.Counts.{AreWithin};
ghost use Rattle.pungi_world.specs.World.{world_at};

use crate::{Account, SlotState};
use pungi_base::{Entry, Memory, Seq};
use std::alloc::Global;

/// The objects of a run by their numbers, and the slots that it touched so far.
#[derive(Drop)]
pub struct World {
    pub accounts: Seq<Account>,
    pub slots: Seq<SlotState>,
}

impl World {
    /// The world at the start of a run: every object is there, none is changed, and no slot was touched.
    pub fn start(alloc: Global, entry: &Entry) -> Result<World, Memory>
        ensures world { IfOk result (λ world. world ≡ world_at entry.now) }
        ensures within { IfOk result (λ world. AreWithin 0 world) }
    {
        let untouched = Account {
            change: 0,
            handed: 0,
            made: false,
        };
        let accounts = vec![in alloc; untouched; entry.objects as usize]?;
        Ok(World {
            accounts: Seq::new(accounts),
            slots: Seq::new(Vec::new(alloc)),
        })
    }
}
