// Loads and stores.
ghost use Rattle.std.specs.Prelude.{◌≡◌, reverse, IfOk};
ghost use Rattle.pungi_resolved.specs.ValueView.{place_view};
ghost use Rattle.pungi_meaning.specs.Exprs.{load_slot, load_field, load_old, store, store_field, store_slot};
ghost use Rattle.pungi_meaning.specs.Machine.{todos, state_of, Matches};
ghost use Rattle.pungi_meaning.specs.Values.{slot_kind};
ghost use Rattle.pungi_meaning.specs.Work.{below, top};

use crate::machine::{Ending, Machine};
use crate::stack::{content_at, newest, note_used, put, take, unused};
use pungi_api::Param;
use pungi_base::{Choice, Memory, Name, Pos, Value};
use pungi_resolved::Place;
use pungi_types::ValueKind;
use pungi_world::{Content, Halt, Slot};
use std::alloc::Global;

/// What a slot of this kind holds.
fn slot_kind(kind: ValueKind) -> Param
    ensures { result ≡ slot_kind kind }
{
    match kind {
        ValueKind::Int => Param::Int,
        ValueKind::Long => Param::Long,
        ValueKind::Size => Param::Size,
        ValueKind::Text => Param::TextOrNull,
        _ => Param::ObjectOrNull,
    }
}

/// A slot is loaded.
fn load_slot(
    m: &mut Machine,
    alloc: Global,
    choices: &[Choice],
    pos: Pos,
    kind: ValueKind,
    slot: Slot,
) -> Result<Option<Ending>, Memory>
    ensures { IfOk result (λ halt. Matches (load_slot choices.now pos kind slot (todos m.old.tasks.items)
        (state_of m.old)) halt m.new) }
{
    let rest = unused(choices, m.used.len());
    match m.world.load(alloc, slot, slot_kind(kind), rest) {
        Ok(effect) => {
            note_used(&mut m.used, pos, effect.used)?;
            if let Some(value) = effect.value {
                m.values.push(value)?;
            }
            Ok(None)
        }
        Err(Halt::Stopped) => Ok(Some(Ending::Stop(pos))),
        Err(Halt::NeedsChoice) => Ok(Some(Ending::Want)),
        Err(Halt::Memory) => Err(Memory),
    }
}

/// A field of an object is loaded.
pub fn load_field(
    m: &mut Machine,
    alloc: Global,
    choices: &[Choice],
    pos: Pos,
    kind: ValueKind,
    base: Value,
    tag: Name,
    field: Name,
) -> Result<Option<Ending>, Memory>
    ensures { IfOk result (λ halt. Matches (load_field choices.now pos kind base tag field (todos m.old.tasks.items)
        (state_of m.old)) halt m.new) }
{
    match base {
        Value::Object(object) => {
            let slot = Slot::Field { object, tag, field };
            load_slot(m, alloc, choices, pos, kind, slot)
        }
        _ => Ok(Some(Ending::Stop(pos))),
    }
}

/// What a place holds. The base of a field waits, and stays.
pub fn load_old(
    m: &mut Machine,
    alloc: Global,
    choices: &[Choice],
    kind: ValueKind,
    place: &Place,
) -> Result<Option<Ending>, Memory>
    ensures { IfOk result (λ halt. Matches (load_old choices.now kind (place_view place.now)
        (todos m.old.tasks.items) (state_of m.old)) halt m.new) }
{
    match place {
        Place::Local(pos, local) => match content_at(&m.locals, *local) {
            Content::Holds(value) => {
                m.values.push(value)?;
                Ok(None)
            }
            Content::Unset => Ok(Some(Ending::Stop(*pos))),
        },
        Place::Global(pos, name) => {
            load_slot(m, alloc, choices, *pos, kind, Slot::Global(*name))
        }
        Place::Field(pos, _, tag, field) => {
            let base = newest(&m.values);
            load_field(m, alloc, choices, *pos, kind, base, *tag, *field)
        }
    }
}

/// A value is stored into a slot, and is the value of the assignment. What waited for it is gone already.
fn store_slot(
    m: &mut Machine,
    alloc: Global,
    choices: &[Choice],
    pos: Pos,
    kind: ValueKind,
    slot: Slot,
    value: Value,
) -> Result<Option<Ending>, Memory>
    ensures { IfOk result (λ halt. Matches (store_slot choices.now pos kind slot value (reverse m.old.values.items)
        (todos m.old.tasks.items) (state_of m.old)) halt m.new) }
{
    let rest = unused(choices, m.used.len());
    match m.world.store(alloc, slot, slot_kind(kind), value, rest) {
        Ok(effect) => {
            note_used(&mut m.used, pos, effect.used)?;
            m.values.push(value)?;
            Ok(None)
        }
        Err(Halt::Stopped) => Ok(Some(Ending::Stop(pos))),
        Err(Halt::NeedsChoice) => Ok(Some(Ending::Want)),
        Err(Halt::Memory) => Err(Memory),
    }
}

/// A value is stored into a field, and is the value of the assignment. The field's base is the newest that waits.
fn store_into_field(
    m: &mut Machine,
    alloc: Global,
    choices: &[Choice],
    pos: Pos,
    kind: ValueKind,
    tag: Name,
    field: Name,
    value: Value,
) -> Result<Option<Ending>, Memory>
    ensures { IfOk result (λ halt. Matches (store_field choices.now pos kind (top (reverse m.old.values.items)) tag
        field value (below (reverse m.old.values.items)) (todos m.old.tasks.items) (state_of m.old)) halt m.new) }
{
    match take(&mut m.values) {
        Value::Object(object) => {
            let slot = Slot::Field { object, tag, field };
            store_slot(m, alloc, choices, pos, kind, slot, value)
        }
        _ => Ok(Some(Ending::Stop(pos))),
    }
}

/// The newest value is stored into a field, and stays. The field's base waits below it.
fn store_field(
    m: &mut Machine,
    alloc: Global,
    choices: &[Choice],
    pos: Pos,
    kind: ValueKind,
    tag: Name,
    field: Name,
) -> Result<Option<Ending>, Memory>
    ensures { IfOk result (λ halt. Matches (store_field choices.now pos kind (top (below (reverse m.old.values.items)))
        tag field (top (reverse m.old.values.items)) (below (below (reverse m.old.values.items)))
        (todos m.old.tasks.items) (state_of m.old)) halt m.new) }
{
    let value = take(&mut m.values);
    store_into_field(m, alloc, choices, pos, kind, tag, field, value)
}

/// The newest value is stored, and stays.
pub fn store(
    m: &mut Machine,
    alloc: Global,
    choices: &[Choice],
    kind: ValueKind,
    place: &Place,
) -> Result<Option<Ending>, Memory>
    ensures { IfOk result (λ halt. Matches (store choices.now kind (place_view place.now) (todos m.old.tasks.items)
        (state_of m.old)) halt m.new) }
{
    match place {
        Place::Local(_, local) => {
            let value = newest(&m.values);
            put(&mut m.locals, *local, Content::Holds(value));
            Ok(None)
        }
        Place::Global(pos, name) => {
            let value = take(&mut m.values);
            store_slot(m, alloc, choices, *pos, kind, Slot::Global(*name), value)
        }
        Place::Field(pos, _, tag, field) => {
            store_field(m, alloc, choices, *pos, kind, *tag, *field)
        }
    }
}
