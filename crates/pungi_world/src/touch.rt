ghost use Rattle.std.specs.Prelude.{◌≡◌, OnOk};
ghost use Rattle.pungi_world.specs.Slots.{is_same, place_of, with_content, with_slot, first_touch, touch, GivesTouch};

use crate::at_entry::enter;
use crate::counts::add_value;
use crate::{Content, Halt, Slot, SlotState, World};
use pungi_api::Param;
use pungi_base::{Choice, Memory};

/// Where a touched slot stands, and how many choices its touch used.
#[derive(Clone, Copy)]
pub struct Touch {
    pub place: usize,
    pub used: usize,
}

fn is_same(a: &Slot, b: &Slot) -> bool
    ensures { result ≡ is_same a.now b.now }
{
    match (a, b) {
        (Slot::Global(m), Slot::Global(n)) => m.0 == n.0,
        (
            Slot::Field { object, tag, field },
            Slot::Field {
                object: other_object,
                tag: other_tag,
                field: other_field,
            },
        ) => *object == *other_object && tag.0 == other_tag.0 && field.0 == other_field.0,
        _ => false,
    }
}

/// The place of a slot among those that were touched.
fn place_of(slots: &[SlotState], slot: &Slot) -> Option<usize>
    ensures { result ≡ place_of slots.now slot.now }
{
    slots.iter().position(|state| is_same(&state.slot, slot))
}

/// The object of a content is there.
fn add_content(world: &mut World, content: Content) -> Result<(), Memory>
    ensures { OnOk result (world.new ≡ with_content world.old content) }
{
    match content {
        Content::Unset => Ok(()),
        Content::Holds(value) => add_value(world, value),
    }
}

/// A slot stands after those that were touched.
fn add_slot(world: &mut World, slot: Slot, content: Content) -> Result<(), Memory>
    ensures { OnOk result (world.new ≡ with_slot world.old slot content) }
{
    world.slots.push(SlotState {
        slot,
        at_entry: content,
        held: content,
    })?;
    Ok(())
}

/// A slot is touched for the first time.
fn touch_first(
    world: &mut World,
    slot: Slot,
    kind: Param,
    choices: &[Choice],
) -> Result<Touch, Halt>
    ensures { GivesTouch result world.new (first_touch world.old slot kind choices.now) }
{
    let place = world.slots.len();
    let (content, used) = enter(world, &slot, kind, choices)?;
    add_content(world, content)?;
    add_slot(world, slot, content)?;
    Ok(Touch { place, used })
}

/// A slot is touched.
pub fn touch_slot(
    world: &mut World,
    slot: Slot,
    kind: Param,
    choices: &[Choice],
) -> Result<Touch, Halt>
    ensures { GivesTouch result world.new (touch world.old slot kind choices.now) }
{
    match place_of(world.slots.as_slice(), &slot) {
        Some(place) => Ok(Touch { place, used: 0 }),
        None => touch_first(world, slot, kind, choices),
    }
}
