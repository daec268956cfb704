ghost use Rattle.std.specs.Prelude.{◌≡◌, IfOk};
ghost use Rattle.pungi_world.specs.Effects.{Gives};
ghost use Rattle.pungi_world.specs.Follows.{Follows};
ghost use Rattle.pungi_world.specs.Slots.{slot_at, after_load, load_effect, put_at, store_effect};

use crate::touch::touch_slot;
use crate::{Content, Effect, Halt, Slot, World};
use pungi_api::Param;
use pungi_base::{Choice, Value};

/// What the touched slot at a place holds. Nothing where there is no such slot.
fn held_at(world: &World, place: usize) -> Content
    ensures { result ≡ (slot_at world.now place).held }
{
    if place < world.slots.len() {
        world.slots.as_slice()[place].held
    } else {
        Content::Unset
    }
}

/// The touched slot at a place holds a value from now on.
fn put_at(world: &mut World, place: usize, value: Value)
    ensures { world.new ≡ put_at world.old place value }
{
    if place >= world.slots.len() {
        return;
    }
    let mut state = world.slots.as_slice()[place];
    state.held = Content::Holds(value);
    world.slots.set(place, state);
}

/// What a load of a content returns.
fn read(world: &World, content: Content, used: usize) -> Result<Effect, Halt>
    ensures { Gives result world.now (after_load content used world.now) }
{
    match content {
        Content::Unset => Err(Halt::Stopped),
        Content::Holds(value) => Ok(Effect {
            value: Some(value),
            used,
        }),
    }
}

fn load_slot(world: &mut World, slot: Slot, kind: Param, choices: &[Choice]) -> Result<Effect, Halt>
    ensures { Gives result world.new (load_effect world.old slot kind choices.now) }
{
    let touch = touch_slot(world, slot, kind, choices)?;
    let content = held_at(world, touch.place);
    read(world, content, touch.used)
}

fn store_slot(
    world: &mut World,
    slot: Slot,
    kind: Param,
    value: Value,
    choices: &[Choice],
) -> Result<Effect, Halt>
    ensures { Gives result world.new (store_effect world.old slot kind value choices.now) }
{
    let touch = touch_slot(world, slot, kind, choices)?;
    put_at(world, touch.place, value);
    Ok(Effect {
        value: None,
        used: touch.used,
    })
}

impl World {
    /// Reads a slot of this kind (C11 6.3.2.1). The first touch of a slot uses a choice for what it held at entry, but
    /// a slot of an object made in this run is unset. `Stopped` where the content is unset, and `NeedsChoice` where the
    /// choice is missing or is no content of this kind. After either the slot may have been touched.
    pub fn load(&mut self, slot: Slot, kind: Param, choices: &[Choice]) -> Result<Effect, Halt>
        ensures effect { Gives result self.new (load_effect self.old slot kind choices.now) }
        ensures follows { IfOk result (λ effect. Follows self.old self.new effect.used 1 0) }
    {
        Ok(load_slot(self, slot, kind, choices)?)
    }

    /// Writes a slot of this kind (C11 6.5.16). Its first touch is that of a load, with the same `NeedsChoice`. An
    /// unset content doesn't stop it.
    pub fn store(
        &mut self,
        slot: Slot,
        kind: Param,
        value: Value,
        choices: &[Choice],
    ) -> Result<Effect, Halt>
        ensures effect { Gives result self.new (store_effect self.old slot kind value choices.now) }
        ensures follows { IfOk result (λ effect. Follows self.old self.new effect.used 1 0) }
    {
        Ok(store_slot(self, slot, kind, value, choices)?)
    }
}
