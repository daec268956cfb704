//! What calls of rows show, for tables of cases.
use pungi_api::{Row, Signature, Table, signature_of};
use pungi_base::{Choice, Entry, Memory, Name, Seq, Value};
use pungi_world::{Account, ApiCall, Effect, Halt, World};
use std::alloc::Global;

/// The statics, and two objects more.
const OBJECTS: usize = 26;

pub(crate) const X: Value = Value::Object(24);

pub(crate) const Y: Value = Value::Object(25);

pub(crate) const T: Value = Value::Text;

pub(crate) const N: Value = Value::Int(3);

/// What a call shows: why it goes no further; or its value, how many choices it used, how many objects are there, and
/// the account of the one object that it touched.
#[derive(Clone, Copy, Debug)]
pub(crate) enum Shown {
    Halts(Halt),
    Ends(Option<Value>, usize, usize, Option<(u32, Account)>),
}

pub(crate) const NEEDS: Shown = Shown::Halts(Halt::NeedsChoice);

const STOPS: Shown = Shown::Halts(Halt::Stopped);

const UNTOUCHED: Account = Account {
    change: 0,
    handed: 0,
    made: false,
};

pub(crate) const RAISED: Account = Account {
    change: 1,
    handed: 0,
    made: false,
};

pub(crate) const LOWERED: Account = Account {
    change: -1,
    handed: 0,
    made: false,
};

pub(crate) const HANDED: Account = Account {
    change: 0,
    handed: 1,
    made: false,
};

/// Whether this account was touched, and no other one.
fn is_touched(accounts: &[Account], touched: Option<(u32, Account)>) -> bool {
    for (k, account) in accounts.iter().enumerate() {
        let wanted = match touched {
            Some((object, wanted)) if object as usize == k => wanted,
            _ => UNTOUCHED,
        };
        if *account != wanted {
            return false;
        }
    }
    true
}

fn is_shown(world: &World, outcome: Result<Effect, Halt>, shown: Shown) -> bool {
    match outcome {
        Err(halt) => matches!(shown, Shown::Halts(wanted) if wanted == halt),
        Ok(effect) => match shown {
            Shown::Halts(_) => false,
            Shown::Ends(value, used, objects, touched) => {
                effect.value == value
                    && effect.used == used
                    && world.accounts.len() == objects
                    && world.slots.is_empty()
                    && is_touched(world.accounts.as_slice(), touched)
            }
        },
    }
}

fn does(
    alloc: Global,
    signature: &Signature,
    args: &[Value],
    choices: &[Choice],
    shown: Shown,
) -> Result<bool, Memory> {
    if args.len() > 3 {
        return Ok(false);
    }
    let entry = Entry {
        objects: OBJECTS as u32,
        args: Seq::new(Vec::new(alloc)),
    };
    let mut world = World::start(alloc, &entry)?;
    let outcome = world.apply(&ApiCall { signature, args }, choices);
    Ok(is_shown(&world, outcome, shown))
}

/// Whether the call shows this with a list of no choice or one.
fn shows(
    alloc: Global,
    signature: &Signature,
    args: &[Value],
    choice: Option<Choice>,
    shown: Shown,
) -> Result<bool, Memory> {
    match choice {
        None => does(alloc, signature, args, &[], shown),
        Some(choice) => does(alloc, signature, args, &[choice], shown),
    }
}

/// Whether `NULL` at a place of the arguments stops.
fn null_stops(
    alloc: Global,
    signature: &Signature,
    args: &[Value],
    place: usize,
    choice: Option<Choice>,
) -> Result<bool, Memory> {
    let mut values = Vec::from_slice(alloc, args)?;
    if place >= values.len() {
        return Ok(false);
    }
    values[place] = Value::Null;
    shows(alloc, signature, values.as_slice(), choice, STOPS)
}

/// Whether a row shows what is stated by each of these choices, and stops where `NULL` stands at one of these places.
fn row_shows(
    alloc: Global,
    row: &Row,
    args: &[Value],
    needed: &[usize],
    ways: &[(Option<Choice>, Shown)],
) -> Result<bool, Memory> {
    let signature = signature_of(alloc, row, &[])?;
    for (choice, shown) in ways {
        if !shows(alloc, &signature, args, *choice, *shown)? {
            return Ok(false);
        }
        for place in needed {
            if !null_stops(alloc, &signature, args, *place, *choice)? {
                return Ok(false);
            }
        }
    }
    Ok(true)
}

/// Rows with their arguments and the places of those that may not be `NULL`; and what each shows by each choice.
pub(crate) type Group = (
    &'static [(u32, &'static [Value], &'static [usize])],
    &'static [(Option<Choice>, Shown)],
);

fn all_show_in(alloc: Global, table: &Table, group: Group) -> Result<bool, Memory> {
    let (rows, ways) = group;
    for (name, args, needed) in rows {
        let Some(row) = table.row(Name(*name)) else {
            return Ok(false);
        };
        if !row_shows(alloc, row, args, needed, ways)? {
            return Ok(false);
        }
    }
    Ok(true)
}

pub(crate) fn all_show(alloc: Global, group: Group) -> Result<bool, Memory> {
    let table = Table::builtin(alloc)?;
    all_show_in(alloc, &table, group)
}
