// The edge out of a function.
ghost use Rattle.std.specs.Prelude.{◌≡◌, ◌≤◌, ◌<◌, ◌+◌, ◌^◌, get_or, length, IfOk};
ghost use Rattle.pungi_shape.specs.declared.holding.Holding.TheVariants.{Unset};
ghost use Rattle.pungi_shape.specs.Bounds.{IsShape};
ghost use Rattle.pungi_shape.specs.Edges.{units, taken_of, is_owed, is_uncounted, number_due, exit_duty, exit_duties};
ghost use Rattle.pungi_shape.specs.Edges.{exits_from};
ghost use Rattle.pungi_shape.specs.Forms.{unit, plus, constant, IsFactor};
ghost use Rattle.pungi_shape.specs.Scenes.{after_entry, after_returned};
ghost use Rattle.pungi_shape.specs.Shapes.{exit_of, is_token, width_of};

use crate::shapes::{count_of_numbers, one_if_number};
use crate::{Change, Edge, Form, Goal, Holding, Shape};
use pungi_base::{Memory, Seq};
use pungi_code::Code;
use std::alloc::Global;

/// The exit class where a function returns under a shape: what is known of the values at entry, the static objects
/// and the returned value.
fn exit_of(alloc: Global, shape: &Shape) -> Result<Shape, Memory>
    ensures { IfOk result (λ exit. exit ≡ exit_of shape.now) }
{
    let entry = shape.entry.copy(alloc)?;
    let statics = shape.statics.copy(alloc)?;
    Ok(Shape {
        entry,
        vars: Seq::new(Vec::new(alloc)),
        statics,
        returned: shape.returned,
        slots: Seq::new(Vec::new(alloc)),
        made: Seq::new(Vec::new(alloc)),
    })
}

/// The forms of all coordinates.
fn units(alloc: Global, width: u32) -> Result<Seq<Form>, Memory>
    ensures { IfOk result (λ rows. rows ≡ units width) }
{
    let mut rows = Seq::new(Vec::new(alloc));
    for k in 0..width {
        rows.push(Form::unit(alloc, width, k)?)?;
    }
    Ok(rows)
}

/// The first coordinate of the numbers at entry.
pub(crate) fn after_returned(shape: &Shape) -> usize
    requires narrow { width_of shape.now ≤ 256 }
    ensures { result ≡ after_returned shape.now }
{
    1 + count_of_numbers(shape.vars.as_slice()) + one_if_number(shape.returned)
}

/// The first coordinate of the balances.
pub(crate) fn after_entry(shape: &Shape) -> usize
    requires narrow { width_of shape.now ≤ 256 }
    ensures { result ≡ after_entry shape.now }
{
    after_returned(shape) + count_of_numbers(shape.entry.as_slice())
}

/// Whether the parameter at a place holds a token at entry.
fn is_held_at(entry: &[Holding], place: u32, t: u32) -> bool
    ensures { result ≡ is_token t (get_or entry.now place Unset) }
{
    match entry.get(place as usize) {
        Some(h) => h.is_token(t),
        None => false,
    }
}

/// How many parameters whose reference is taken over hold a token at entry.
fn taken_of(code: &Code, shape: &Shape, t: u32) -> usize
    ensures count { result ≡ taken_of code.now shape.now t }
    ensures few { result < 2 ^ 62 }
{
    let taken = code.terms.convention.taken.as_slice();
    let mut count = 0;
    for place in taken {
        if is_held_at(shape.entry.as_slice(), *place, t) {
            count += 1;
        }
    }
    count
}

/// Whether a token is returned, and its reference goes to the caller.
fn is_owed(code: &Code, shape: &Shape, t: u32) -> bool
    ensures { result ≡ is_owed code.now shape.now t }
{
    if code.terms.convention.borrowed {
        false
    } else {
        shape.returned.is_token(t)
    }
}

/// Whether a token is a static object that isn't counted.
fn is_uncounted(code: &Code, shape: &Shape, t: u32) -> bool
    ensures { result ≡ is_uncounted code.now shape.now t }
{
    let count = code.terms.profile.immortal_count();
    shape
        .statics
        .as_slice()
        .iter()
        .any(|k| k.0 < count && k.1.is_token(t))
}

/// How often a token is taken over, less the reference that is owed.
fn number_due(code: &Code, shape: &Shape, t: u32) -> i64
    ensures number { result ≡ number_due code.now shape.now t }
    ensures factor { IsFactor result }
{
    let taken = taken_of(code, shape, t) as i64;
    if is_owed(code, shape, t) {
        taken - 1
    } else {
        taken
    }
}

/// The form of a coordinate and a number.
fn balance_and(alloc: Global, width: u32, k: u32, n: i64) -> Result<Form, Memory>
    requires after { 0 < k }
    requires factor { IsFactor n }
    ensures { IfOk result (λ form. form ≡ plus (unit width k) (constant width n)) }
{
    let balance = Form::unit(alloc, width, k)?;
    let number = Form::constant(alloc, width, n)?;
    balance.plus(alloc, &number)
}

/// The form that is 0 where a token's balance is what it has to be at a return.
fn exit_duty(
    alloc: Global,
    code: &Code,
    shape: &Shape,
    width: u32,
    first: u32,
    t: u32,
) -> Result<Form, Memory>
    requires width { width ≡ width_of shape.now }
    requires first { first ≡ after_entry shape.now }
    requires within { first + t < width }
    ensures { IfOk result (λ form. form ≡ exit_duty code.now shape.now t) }
{
    let number = number_due(code, shape, t);
    balance_and(alloc, width, first + t, number)
}

/// The balance of each token that is counted is 0, less what is taken over, and one more where it is owed.
fn exit_duties(alloc: Global, code: &Code, shape: &Shape, width: u32) -> Result<Seq<Form>, Memory>
    requires shape { IsShape shape.now }
    requires narrow { width_of shape.now ≤ 256 }
    requires width { width ≡ width_of shape.now }
    ensures { IfOk result (λ duties. duties ≡ exit_duties code.now shape.now) }
{
    let first = after_entry(shape) as u32;
    let mut duties = Seq::new(Vec::new(alloc));
    for t in 0..shape.made.len() as u32 {
        if !is_uncounted(code, shape, t) {
            duties.push(exit_duty(alloc, code, shape, width, first, t)?)?;
        }
    }
    Ok(duties)
}

/// The edge out of the function.
pub(crate) fn exits_from(alloc: Global, code: &Code, shape: &Shape) -> Result<Edge, Memory>
    requires shape { IsShape shape.now }
    requires narrow { width_of shape.now ≤ 256 }
    ensures { IfOk result (λ edge. edge ≡ exits_from code.now shape.now) }
{
    let width = shape.width() as u32;
    let duties = exit_duties(alloc, code, shape, width)?;
    let rows = units(alloc, width)?;
    let exit = exit_of(alloc, shape)?;
    Ok(Edge {
        goal: Goal::ToExit(exit),
        guard: Seq::new(Vec::new(alloc)),
        change: Change::ByMap(rows),
        duties,
    })
}
