ghost use Rattle.std.specs.Prelude.{◌≡◌, ◌^◌, OnOk};
ghost use Rattle.pungi_world.specs.Counts.{by_one, count, handed, with_object, with_value, count_value, hand_over};
ghost use Rattle.pungi_world.specs.Counts.{made, mark_made, AreWithin};

use crate::{Account, World};
use pungi_base::{Memory, Value};

/// Whether a count rises or falls, by one.
#[derive(Clone, Copy)]
pub enum Way {
    Up,
    Down,
}

/// The reference count of an object rises or falls.
fn count(world: &mut World, object: u32, way: Way)
    requires { AreWithin (2 ^ 62) world.old }
    ensures { world.new ≡ count world.old object (by_one way) }
{
    if object as usize >= world.accounts.len() {
        return;
    }
    let mut account = world.accounts.as_slice()[object as usize];
    match way {
        Way::Up => account.change += 1,
        Way::Down => account.change -= 1,
    }
    world.accounts.set(object as usize, account);
}

/// The reference count of the object of a value rises or falls.
pub fn count_value(world: &mut World, value: Value, way: Way)
    requires { AreWithin (2 ^ 62) world.old }
    ensures { world.new ≡ count_value world.old value (by_one way) }
{
    match value {
        Value::Object(object) => count(world, object, way),
        Value::Null | Value::Int(_) | Value::Text => {}
    }
}

fn hand(world: &mut World, object: u32)
    requires { AreWithin (2 ^ 62) world.old }
    ensures { world.new ≡ handed world.old object }
{
    if object as usize >= world.accounts.len() {
        return;
    }
    let mut account = world.accounts.as_slice()[object as usize];
    account.handed += 1;
    world.accounts.set(object as usize, account);
}

/// A reference to the object of a value is handed over.
pub fn hand_over(world: &mut World, value: Value)
    requires { AreWithin (2 ^ 62) world.old }
    ensures { world.new ≡ hand_over world.old value }
{
    match value {
        Value::Object(object) => hand(world, object),
        Value::Null | Value::Int(_) | Value::Text => {}
    }
}

fn mark(world: &mut World, object: u32)
    ensures { world.new ≡ made world.old object }
{
    if object as usize >= world.accounts.len() {
        return;
    }
    let mut account = world.accounts.as_slice()[object as usize];
    account.made = true;
    world.accounts.set(object as usize, account);
}

/// The object of a value was made in this run.
pub fn mark_made(world: &mut World, value: Value)
    ensures { world.new ≡ mark_made world.old value }
{
    match value {
        Value::Object(object) => mark(world, object),
        Value::Null | Value::Int(_) | Value::Text => {}
    }
}

fn add_object(world: &mut World, object: u32) -> Result<(), Memory>
    ensures { OnOk result (world.new ≡ with_object world.old object) }
{
    if object as usize == world.accounts.len() {
        world.accounts.push(Account {
            change: 0,
            handed: 0,
            made: false,
        })?;
    }
    Ok(())
}

/// The object of a value is there from now on, if it is one of those that are or the next one.
pub fn add_value(world: &mut World, value: Value) -> Result<(), Memory>
    ensures { OnOk result (world.new ≡ with_value world.old value) }
{
    match value {
        Value::Object(object) => add_object(world, object)?,
        Value::Null | Value::Int(_) | Value::Text => {}
    }
    Ok(())
}
