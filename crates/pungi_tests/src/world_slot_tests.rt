use pungi_api::Param;
use pungi_base::{Choice, Entry, Memory, Name, Seq, Value};
use pungi_world::{Account, Content, Effect, Halt, Slot, World};
use std::alloc::Global;
use std::test::Fail;

const GLOBAL: Slot = Slot::Global(Name(200));

/// A field of an object of the entry.
const FIELD: Slot = Slot::Field {
    object: 24,
    tag: Name(201),
    field: Name(202),
};

/// A field of an object that the run made.
const FRESH: Slot = Slot::Field {
    object: 25,
    tag: Name(201),
    field: Name(202),
};

/// The statics, an object of the entry, and one that the run made.
fn world(alloc: Global) -> Result<World, Memory> {
    let entry = Entry {
        objects: 25,
        args: Seq::new(Vec::new(alloc)),
    };
    let mut world = World::start(alloc, &entry)?;
    world.accounts.push(Account {
        change: 1,
        handed: 0,
        made: true,
    })?;
    Ok(world)
}

fn is_value(outcome: &Result<Effect, Halt>, value: Option<Value>, used: usize) -> bool {
    match outcome {
        Ok(effect) => { effect.value == value && effect.used == used }
        Err(_) => false,
    }
}

fn is_halt(outcome: &Result<Effect, Halt>, wanted: Halt) -> bool {
    match outcome {
        Ok(_) => false,
        Err(halt) => *halt == wanted,
    }
}

/// Whether the first load of a slot gives the value of the choice, or needs another one.
fn loads(
    alloc: Global,
    slot: Slot,
    kind: Param,
    choices: &[Choice],
    value: Option<Value>,
) -> Result<bool, Memory> {
    let mut world = world(alloc)?;
    let outcome = world.load(slot, kind, choices);
    match value {
        None => Ok(is_halt(&outcome, Halt::NeedsChoice)),
        Some(_) => Ok(is_value(&outcome, value, 1) && world.slots.len() == 1),
    }
}

const LEAST: i64 = i32::MIN as i64;

/// What may stand in a slot at entry, by its kind.
const FIRST_LOADS: &[(Param, Choice, Option<Value>)] = &[
    (Param::Object, Choice::Null, Some(Value::Null)),
    (Param::Object, Choice::Object(0), Some(Value::Object(0))),
    (Param::Object, Choice::Object(24), Some(Value::Object(24))),
    (Param::Object, Choice::Object(25), None),
    (Param::Object, Choice::Object(26), Some(Value::Object(26))),
    (Param::Object, Choice::Object(27), None),
    (Param::Object, Choice::Text, None),
    (Param::Int, Choice::Int(LEAST), Some(Value::Int(LEAST))),
    (Param::Int, Choice::Int(LEAST - 1), None),
    (Param::Int, Choice::Int(2147483648), None),
    (
        Param::Long,
        Choice::Int(i64::MIN),
        Some(Value::Int(i64::MIN)),
    ),
    (Param::Size, Choice::Int(-1), Some(Value::Int(-1))),
    (Param::Size, Choice::Null, None),
    (Param::Text, Choice::Text, Some(Value::Text)),
    (Param::Text, Choice::Null, Some(Value::Null)),
    (Param::Text, Choice::Object(0), None),
];

#[test]
fn first_loads(rt: HostRuntime) -> Result<(), Fail> {
    let alloc = rt.alloc();
    for (kind, choice, value) in FIRST_LOADS {
        assert!(rt; loads(alloc, GLOBAL, *kind, &[*choice], *value)?);
        assert!(rt; loads(alloc, FIELD, *kind, &[*choice], *value)?);
    }
    assert!(rt; loads(alloc, GLOBAL, Param::Object, &[], None)?);
    Ok(())
}

/// A slot that holds one object at entry and another one later.
#[test]
fn a_store_and_a_load(rt: HostRuntime) -> Result<(), Fail> {
    let alloc = rt.alloc();
    let mut world = world(alloc)?;
    let stored = world.store(FIELD, Param::Object, Value::Object(25), &[Choice::Null]);
    assert!(rt; is_value(&stored, None, 1));
    let loaded = world.load(FIELD, Param::Object, &[]);
    assert!(rt; is_value(&loaded, Some(Value::Object(25)), 0));
    assert_eq!(rt; world.slots.len(), 1);
    let slots = world.slots.as_slice();
    assert!(rt; slots[0].slot == FIELD);
    assert!(rt; slots[0].at_entry == Content::Holds(Value::Null));
    assert!(rt; slots[0].held == Content::Holds(Value::Object(25)));
    Ok(())
}

/// A slot of a made object is unset at entry, and uses no choice.
#[test]
fn a_slot_of_a_made_object(rt: HostRuntime) -> Result<(), Fail> {
    let alloc = rt.alloc();
    let mut unset = world(alloc)?;
    let outcome = unset.load(FRESH, Param::Object, &[Choice::Null]);
    assert!(rt; is_halt(&outcome, Halt::Stopped));
    let mut made = world(alloc)?;
    let stored = made.store(FRESH, Param::Int, Value::Int(7), &[]);
    assert!(rt; is_value(&stored, None, 0));
    let loaded = made.load(FRESH, Param::Int, &[]);
    assert!(rt; is_value(&loaded, Some(Value::Int(7)), 0));
    let wanting = made.store(GLOBAL, Param::Int, Value::Int(7), &[]);
    assert!(rt; is_halt(&wanting, Halt::NeedsChoice));
    Ok(())
}
