ghost use Rattle.std.specs.Prelude.{◌≡◌, ℕ, IfOk, IsTrue};
ghost use Rattle.pungi_world.specs.Calls.{call_effect};
ghost use Rattle.pungi_world.specs.Counts.{AreWithin};
ghost use Rattle.pungi_world.specs.Effects.{Gives};
ghost use Rattle.pungi_world.specs.Escapes.{IsCountable};
ghost use Rattle.pungi_world.specs.Slots.{load_effect, store_effect};
ghost use Rattle.pungi_world.specs.World.{world_at};
ghost use Rattle.pungi_meaning.specs.Counted.{IsSmall};

use pungi_api::Param;
use pungi_base::{Choice, Entry, Memory, Seq, Value};
use pungi_world::{ApiCall, Effect, Halt, Slot, World};
use std::alloc::Global;
use std::marker::Model;

/// How far the counts of a world may be from 0. No run that ends in a lifetime comes so far.
const MOST: u64 = 1 << 60;

/// A world with a bound on its counts, and few objects and slots, so that they can be counted. After a fault it is
/// empty.
#[derive(Drop)]
pub struct CountedWorld {
    world: World,
    most: u64,
}

impl Model for CountedWorld {
    ghost use Rattle.pungi_world.specs.declared.world.World.{World};
    ghost use Rattle.std.specs.Prelude.{◌≤◌, ◌^◌};
    ghost use Rattle.pungi_world.specs.Counts.{AreWithin};
    ghost use Rattle.pungi_meaning.specs.Counted.{IsSmall};

    ghost Value = { World };

    ghost view = { λ w. w.world };

    ghost invariant = { λ w. (w.most ≤ 2 ^ 61) × IsSmall w.world × AreWithin w.most w.world };
}

fn is_small(world: &World) -> bool
    ensures { IsTrue result → IsSmall world.now }
{
    world.accounts.len() < u32::MAX as usize && world.slots.len() < 1 << 60
}

fn empty_world(alloc: Global) -> World
    ensures within { (most : ℕ) → AreWithin most result }
    ensures small { IsSmall result }
{
    World {
        accounts: Seq::new(Vec::new(alloc)),
        slots: Seq::new(Vec::new(alloc)),
    }
}

impl CountedWorld {
    /// The world at the start of a run.
    pub fn start(alloc: Global, entry: &Entry) -> Result<CountedWorld, Memory>
        ensures { IfOk result (λ world. world ≡ world_at entry.now) }
    {
        let world = World::start(alloc, entry)?;
        if !is_small(&world) {
            return Err(Memory);
        }
        Ok(CountedWorld { world, most: 0 })
    }

    /// The world itself.
    pub fn into_world(self) -> World
        ensures same { result ≡ self }
        ensures countable { IsCountable result }
    {
        let CountedWorld { world, .. } = self;
        world
    }

    /// A load from a slot.
    pub fn load(
        &mut self,
        alloc: Global,
        slot: Slot,
        kind: Param,
        choices: &[Choice],
    ) -> Result<Effect, Halt>
        ensures { Gives result self.new (load_effect self.old slot kind choices.now) }
    {
        match self.world.load(slot, kind, choices) {
            Ok(effect) if is_small(&self.world) => Ok(effect),
            Ok(_) => {
                self.world = empty_world(alloc);
                Err(Halt::Memory)
            }
            Err(halt) => {
                self.world = empty_world(alloc);
                Err(halt)
            }
        }
    }

    /// A store into a slot.
    pub fn store(
        &mut self,
        alloc: Global,
        slot: Slot,
        kind: Param,
        value: Value,
        choices: &[Choice],
    ) -> Result<Effect, Halt>
        ensures { Gives result self.new (store_effect self.old slot kind value choices.now) }
    {
        match self.world.store(slot, kind, value, choices) {
            Ok(effect) if is_small(&self.world) => Ok(effect),
            Ok(_) => {
                self.world = empty_world(alloc);
                Err(Halt::Memory)
            }
            Err(halt) => {
                self.world = empty_world(alloc);
                Err(halt)
            }
        }
    }

    /// A call of the API. Want of memory comes also where the counts, objects or slots would be too many to count.
    pub fn apply(
        &mut self,
        alloc: Global,
        api: &ApiCall,
        choices: &[Choice],
    ) -> Result<Effect, Halt>
        ensures { Gives result self.new (call_effect self.old api.now.signature.now api.now.args.now choices.now) }
    {
        let count = api.args.len() as u64;
        if self.most >= MOST || count >= MOST {
            return Err(Halt::Memory);
        }
        match self.world.apply(api, choices) {
            Ok(effect) if is_small(&self.world) => {
                self.most += count + 1;
                Ok(effect)
            }
            Ok(_) => {
                self.world = empty_world(alloc);
                Err(Halt::Memory)
            }
            Err(halt) => {
                self.world = empty_world(alloc);
                Err(halt)
            }
        }
    }
}
