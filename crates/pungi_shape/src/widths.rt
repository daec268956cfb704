// How many coordinates vectors have at places.
ghost use Rattle.std.specs.Prelude.{◌≡◌, ◌≤◌, ◌+◌, nat_le, IfOk};
ghost use Rattle.pungi_shape.specs.Bounds.{IsShape};
ghost use Rattle.pungi_shape.specs.Found.{IsPlain};
ghost use Rattle.pungi_shape.specs.Leaving.{IsExitClass};
ghost use Rattle.pungi_shape.specs.Places.{width_at};
ghost use Rattle.pungi_shape.specs.Shapes.{width_of};

use crate::edges::MOST_COORDINATES;
use crate::exit_widths::exit_width;
use crate::shapes::{count_of_numbers, one_if_number};
use crate::{Place, Shape};
use pungi_base::Memory;
use std::alloc::Global;

/// How many coordinates vectors have at a place.
pub(crate) fn width_at(alloc: Global, place: &Place) -> Result<usize, Memory>
    requires plain { IsPlain place.now }
    requires narrow { width_at place.now ≤ 256 }
    ensures { IfOk result (λ width. width ≡ width_at place.now) }
{
    match place {
        Place::AtEntry(shape) => Ok(1 + count_of_numbers(shape.entry.as_slice())),
        Place::AtPoint(_, shape) => Ok(shape.width()),
        Place::AfterCall(_, shape, exit) => Ok(shape.width() + exit_width(alloc, exit)? as usize),
    }
}

/// Whether vectors with this shape have few enough coordinates.
fn is_narrow(shape: &Shape) -> bool
    requires shape { IsShape shape.now }
    ensures { result ≡ nat_le (width_of shape.now) 256 }
{
    let made = shape.made.len();
    if made > MOST_COORDINATES {
        return false;
    }
    let vars = count_of_numbers(shape.vars.as_slice());
    let entry = count_of_numbers(shape.entry.as_slice());
    1 + vars + one_if_number(shape.returned) + entry + made <= MOST_COORDINATES
}

/// Whether vectors with both these shapes have few enough coordinates.
fn are_narrow(alloc: Global, shape: &Shape, exit: &Shape) -> Result<bool, Memory>
    requires shape { IsShape shape.now }
    requires exit { IsExitClass exit.now }
    ensures { IfOk result (λ narrow. narrow ≡ nat_le (width_of shape.now + width_of exit.now) 256) }
{
    if !is_narrow(shape) {
        return Ok(false);
    }
    Ok(shape.width() + exit_width(alloc, exit)? as usize <= MOST_COORDINATES)
}

/// Whether vectors at a place have few enough coordinates.
pub(crate) fn is_narrow_at(alloc: Global, place: &Place) -> Result<bool, Memory>
    requires plain { IsPlain place.now }
    ensures { IfOk result (λ narrow. narrow ≡ nat_le (width_at place.now) 256) }
{
    match place {
        Place::AtEntry(shape) => { Ok(count_of_numbers(shape.entry.as_slice()) < MOST_COORDINATES) }
        Place::AtPoint(_, shape) => Ok(is_narrow(shape)),
        Place::AfterCall(_, shape, exit) => are_narrow(alloc, shape, exit),
    }
}
