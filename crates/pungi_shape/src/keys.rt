// The numbers by which places and exit classes are told apart and put in order.
ghost use Rattle.std.specs.Prelude.{◌≡◌, ◌≤◌, ◌<◌, ◌^◌, ◌∷◌, ◌++◌, [], map, IfOk, OnOk};
ghost use Rattle.std.specs.List.{All, flat_map};
ghost use Rattle.pungi_shape.specs.Bounds.{AreTokens};
ghost use Rattle.pungi_shape.specs.Forms.{one_if};
ghost use Rattle.pungi_shape.specs.Found.{IsPlain};
ghost use Rattle.pungi_shape.specs.Keys.{key_of, is_key, marked};
ghost use Rattle.pungi_shape.specs.Reached.{shape_at};
ghost use Rattle.pungi_shape.specs.Shapes.{numbers_of_holding, numbers_of_spot, numbers_of_tracked, numbers_of_shape};
ghost use Rattle.pungi_shape.specs.Shapes.{numbers_of_known, token_in};
ghost use Rattle.pungi_shape.specs.Shapes.{holding_of_static, tokens_in};

use crate::{Holding, Place, Point, Shape, Spot, Tracked};
use pungi_base::Memory;
use std::alloc::Global;

/// Adds 3, and the sign and the size of a known number.
fn push_known(n: i8, key: &mut Vec<u32>) -> Result<(), Memory>
    ensures { OnOk result (key.new.items ≡ key.old.items ++ numbers_of_known n) }
{
    key.push(3)?;
    if n < 0 {
        key.push(0)?;
        key.push((-(n as i32) - 1) as u32)?;
    } else {
        key.push(1)?;
        key.push(n as u32)?;
    }
    Ok(())
}

/// Adds the numbers of a holding.
fn push_holding(holding: Holding, key: &mut Vec<u32>) -> Result<(), Memory>
    requires { All (λ t. t < 2 ^ 31) (token_in holding) }
    ensures { OnOk result (key.new.items ≡ key.old.items ++ numbers_of_holding holding) }
{
    let number = match holding {
        Holding::Unset => 0,
        Holding::Null => 1,
        Holding::Text => 2,
        Holding::Known(n) => return push_known(n, key),
        Holding::Number => 6,
        Holding::Dead => 7,
        Holding::Token(t) => 8 + t,
    };
    key.push(number)?;
    Ok(())
}

fn push_holdings(holdings: &[Holding], key: &mut Vec<u32>) -> Result<(), Memory>
    requires { All (λ t. t < 2 ^ 31) (tokens_in holdings.now) }
    ensures { OnOk result (key.new.items ≡ key.old.items ++ flat_map numbers_of_holding holdings.now) }
{
    for holding in holdings {
        push_holding(*holding, key)?;
    }
    Ok(())
}

fn push_statics(statics: &[(u32, Holding)], key: &mut Vec<u32>) -> Result<(), Memory>
    requires { All (λ t. t < 2 ^ 31) (tokens_in (map holding_of_static statics.now)) }
    ensures { OnOk result (key.new.items
        ≡ key.old.items ++ flat_map numbers_of_holding (map holding_of_static statics.now)) }
{
    for (_, holding) in statics {
        push_holding(*holding, key)?;
    }
    Ok(())
}

fn push_spot(spot: Spot, key: &mut Vec<u32>) -> Result<(), Memory>
    ensures { OnOk result (key.new.items ≡ key.old.items ++ numbers_of_spot spot) }
{
    match spot {
        Spot::Global(name) => {
            key.push(0)?;
            key.push(name.0)?;
        }
        Spot::Field { base, tag, field } => {
            key.push(1)?;
            key.push(base)?;
            key.push(tag.0)?;
            key.push(field.0)?;
        }
    }
    Ok(())
}

fn push_slots(slots: &[Tracked], key: &mut Vec<u32>) -> Result<(), Memory>
    requires { All (λ t. t < 2 ^ 31) (tokens_in (map (λ r. r.held) slots.now)) }
    ensures { OnOk result (key.new.items ≡ key.old.items ++ flat_map numbers_of_tracked slots.now) }
{
    for slot in slots {
        push_spot(slot.spot, key)?;
        push_holding(slot.held, key)?;
    }
    Ok(())
}

fn push_made(made: &[bool], key: &mut Vec<u32>) -> Result<(), Memory>
    ensures { OnOk result (key.new.items ≡ key.old.items ++ map one_if made.now) }
{
    for is_made in made {
        key.push(if *is_made { 1 } else { 0 })?;
    }
    Ok(())
}

/// Adds the numbers of a shape.
fn push_shape(shape: &Shape, key: &mut Vec<u32>) -> Result<(), Memory>
    requires { AreTokens (2 ^ 31) shape.now }
    ensures { OnOk result (key.new.items ≡ key.old.items ++ numbers_of_shape shape.now) }
{
    push_holdings(shape.entry.as_slice(), key)?;
    push_holdings(shape.vars.as_slice(), key)?;
    push_statics(shape.statics.as_slice(), key)?;
    push_holding(shape.returned, key)?;
    push_slots(shape.slots.as_slice(), key)?;
    push_made(shape.made.as_slice(), key)
}

/// The numbers of an exit class.
pub(crate) fn key_of_exit(alloc: Global, exit: &Shape) -> Result<Vec<u32>, Memory>
    requires { AreTokens (2 ^ 31) exit.now }
    ensures { IfOk result (λ key. key.items ≡ numbers_of_shape exit.now) }
{
    let mut key = Vec::with_capacity(alloc, exit.vars.len())?;
    push_shape(exit, &mut key)?;
    Ok(key)
}

/// How many variables the shape of a place has: most of its numbers are theirs.
fn vars_in(place: &Place) -> usize {
    match place {
        Place::AtEntry(shape) | Place::AtPoint(_, shape) | Place::AfterCall(_, shape, _) => {
            shape.vars.len()
        }
    }
}

/// Adds numbers, each after a 1.
fn push_marked(numbers: &[u32], key: &mut Vec<u32>) -> Result<(), Memory>
    ensures { OnOk result (key.new.items ≡ key.old.items ++ marked numbers.now) }
{
    for n in numbers {
        key.push(1)?;
        key.push(*n)?;
    }
    Ok(())
}

/// Adds 1 and the numbers of a point.
fn push_point(point: Point, key: &mut Vec<u32>) -> Result<(), Memory>
    ensures { OnOk result (key.new.items ≡ key.old.items ++ 1 ∷ point.instr ∷ point.done ∷ point.class ∷ []) }
{
    key.push(1)?;
    key.push(point.instr)?;
    key.push(point.done)?;
    key.push(point.class)?;
    Ok(())
}

/// The numbers of a place.
pub(crate) fn key_of(alloc: Global, place: &Place) -> Result<Vec<u32>, Memory>
    requires plain { IsPlain place.now }
    requires tokens { AreTokens (2 ^ 31) (shape_at place.now) }
    ensures { IfOk result (λ key. key.items ≡ key_of place.now) }
{
    let mut key = Vec::with_capacity(alloc, vars_in(place))?;
    match place {
        Place::AtEntry(shape) => {
            key.push(0)?;
            push_shape(shape, &mut key)?;
        }
        Place::AtPoint(point, shape) => {
            push_point(*point, &mut key)?;
            key.push(0)?;
            push_shape(shape, &mut key)?;
        }
        Place::AfterCall(point, shape, exit) => {
            push_point(*point, &mut key)?;
            let numbers = key_of_exit(alloc, exit)?;
            push_marked(numbers.as_slice(), &mut key)?;
            key.push(0)?;
            push_shape(shape, &mut key)?;
        }
    }
    Ok(key)
}

/// Whether two shapes have the same numbers.
pub(crate) fn have_same_numbers(alloc: Global, a: &Shape, b: &Shape) -> Result<bool, Memory>
    requires these { AreTokens (2 ^ 31) a.now }
    requires those { AreTokens (2 ^ 31) b.now }
    ensures { IfOk result (λ same. same ≡ is_key (numbers_of_shape a.now) (numbers_of_shape b.now)) }
{
    let these = key_of_exit(alloc, a)?;
    let those = key_of_exit(alloc, b)?;
    Ok(these.as_slice() == those.as_slice())
}
