ghost use Rattle.std.specs.Prelude.{◌≡◌};
ghost use Rattle.pungi_world.specs.Slots.{is_made, is_fresh, is_old, is_content, find_content, enter};

use crate::choices::{is_null, is_number, is_text, value_of};
use crate::{Content, Halt, Slot, World};
use pungi_api::Param;
use pungi_base::Choice;

/// Whether an object was made in this run.
fn is_made(world: &World, object: u32) -> bool
    ensures { result ≡ is_made world.now object }
{
    if (object as usize) < world.accounts.len() {
        world.accounts.as_slice()[object as usize].made
    } else {
        false
    }
}

/// Whether a slot belongs to a made object, and held nothing at entry.
fn is_fresh(world: &World, slot: &Slot) -> bool
    ensures { result ≡ is_fresh world.now slot.now }
{
    match slot {
        Slot::Global(_) => false,
        Slot::Field { object, .. } => is_made(world, *object),
    }
}

/// Whether a choice is an object that wasn't made in this run, or the next one.
fn is_old(world: &World, choice: &Choice) -> bool
    ensures { result ≡ is_old world.now choice.now }
{
    match choice {
        Choice::Object(k) => *k as usize <= world.accounts.len() && !is_made(world, *k),
        _ => false,
    }
}

/// Whether a choice may be what a slot of this kind held at entry.
fn is_content(world: &World, kind: Param, choice: &Choice) -> bool
    ensures { result ≡ is_content world.now kind choice.now }
{
    match kind {
        Param::Object | Param::ObjectOrNull => is_null(choice) || is_old(world, choice),
        Param::Int => is_number(i32::MIN as i64, i32::MAX as i64, choice),
        Param::Long | Param::Size => is_number(i64::MIN, i64::MAX, choice),
        Param::Text | Param::TextOrNull => is_null(choice) || is_text(choice),
        Param::ModuleDef => false,
    }
}

/// What a slot held at entry by a choice, and how many choices that uses.
fn find_content(world: &World, kind: Param, choices: &[Choice]) -> Result<(Content, usize), Halt>
    ensures { result ≡ find_content world.now kind choices.now }
{
    match choices {
        [choice, ..] => {
            if is_content(world, kind, choice) {
                Ok((Content::Holds(value_of(choice)), 1))
            } else {
                Err(Halt::NeedsChoice)
            }
        }
        [] => Err(Halt::NeedsChoice),
    }
}

/// What a slot held at entry, and how many choices that uses.
pub fn enter(
    world: &World,
    slot: &Slot,
    kind: Param,
    choices: &[Choice],
) -> Result<(Content, usize), Halt>
    ensures { result ≡ enter world.now slot.now kind choices.now }
{
    if is_fresh(world, slot) {
        Ok((Content::Unset, 0))
    } else {
        find_content(world, kind, choices)
    }
}
