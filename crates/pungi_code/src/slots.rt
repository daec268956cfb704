// Loads and stores.
ghost use Rattle.std.specs.Prelude.{◌≡◌, ◌<◌, ◌^◌, IfOk};
ghost use Rattle.pungi_code.specs.Machine.{regs_of, Does};
ghost use Rattle.pungi_code.specs.Perform.{field_of, slot_of, load, store};

use crate::registers::{After, Registers, answer};
use crate::values::content_of;
use crate::{Place, Var};
use pungi_api::Param;
use pungi_base::{Choice, Memory, Name, Pos, Value};
use pungi_meaning::{note_used, unused};
use pungi_world::{Content, Halt, Slot};
use std::alloc::Global;

/// A field of what a base holds.
fn field_of(base: Content, tag: Name, field: Name, kind: Param) -> Option<(Slot, Param)>
    ensures { result ≡ field_of base tag field kind }
{
    match base {
        Content::Holds(Value::Object(object)) => Some((Slot::Field { object, tag, field }, kind)),
        _ => None,
    }
}

/// The slot that a place is, and what it holds.
pub fn slot_of(place: Place, vars: &[Content]) -> Option<(Slot, Param)>
    ensures { result ≡ slot_of place vars.now }
{
    match place {
        Place::Global(name, kind) => Some((Slot::Global(name), kind)),
        Place::Field(base, tag, field, kind) => {
            field_of(content_of(base, vars), tag, field, kind)
        }
    }
}

/// A slot is loaded into a variable.
pub fn load(
    m: &mut Registers,
    alloc: Global,
    choices: &[Choice],
    x: Var,
    pos: Pos,
    pc: usize,
    slot: Slot,
    kind: Param,
) -> Result<After, Memory>
    requires { pc < 2 ^ 63 }
    ensures { IfOk result (λ after. Does (λ next. load choices.now x pos next pc (regs_of m.old) slot kind) after
        m.new) }
{
    let rest = unused(choices, m.used.len());
    match m.world.load(alloc, slot, kind, rest) {
        Ok(effect) => {
            note_used(&mut m.used, pos, effect.used)?;
            answer(m, Some(x), effect.value);
            Ok(After::Goes(pc + 1))
        }
        Err(Halt::Stopped) => Ok(After::Stops(pos)),
        Err(Halt::NeedsChoice) => Ok(After::Wants),
        Err(Halt::Memory) => Err(Memory),
    }
}

/// A value is stored into a slot.
pub fn store(
    m: &mut Registers,
    alloc: Global,
    choices: &[Choice],
    pos: Pos,
    pc: usize,
    value: Value,
    slot: Slot,
    kind: Param,
) -> Result<After, Memory>
    requires { pc < 2 ^ 63 }
    ensures { IfOk result (λ after. Does (λ next. store choices.now pos next pc (regs_of m.old) value slot kind)
        after m.new) }
{
    let rest = unused(choices, m.used.len());
    match m.world.store(alloc, slot, kind, value, rest) {
        Ok(effect) => {
            note_used(&mut m.used, pos, effect.used)?;
            Ok(After::Goes(pc + 1))
        }
        Err(Halt::Stopped) => Ok(After::Stops(pos)),
        Err(Halt::NeedsChoice) => Ok(After::Wants),
        Err(Halt::Memory) => Err(Memory),
    }
}
