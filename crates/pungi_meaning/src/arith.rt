// Arithmetic, comparisons and truth.
ghost use Rattle.std.specs.Prelude.{◌≡◌, [], not, reverse, IfOk};
ghost use Rattle.pungi_resolved.specs.ValueView.{value_view};
ghost use Rattle.pungi_meaning.specs.Exprs.{minus, step_one, compute, compare, fit, right_side, is_wanted};
ghost use Rattle.pungi_meaning.specs.Machine.{todos, state_of, Matches};
ghost use Rattle.pungi_meaning.specs.Values.{arithmetic, number_of, truth, is_true};
ghost use Rattle.pungi_meaning.specs.Work.{top, below, replace_value};

use crate::cmp::number_of;
use crate::expr::evaluate_then;
use crate::machine::{Ending, Machine};
use crate::stack::take;
use crate::task::Task;
use crate::{Cmp, Op, arithmetic, fits, is_true, truth};
use pungi_base::{Memory, Pos, Value};
use pungi_resolved::Value as Node;
use pungi_types::ValueKind;

/// The newest value as a number, taken off.
fn take_number(values: &mut Vec<Value>) -> i64
    ensures value { result ≡ number_of (top (reverse values.old.items)) }
    ensures rest { reverse values.new.items ≡ below (reverse values.old.items) }
{
    number_of(take(values))
}

/// What an operator gives on the two newest values, which are taken off.
fn combine(values: &mut Vec<Value>, op: Op, kind: ValueKind) -> Option<i64>
    ensures value { result ≡ arithmetic op kind (number_of (top (below (reverse values.old.items))))
        (number_of (top (reverse values.old.items))) }
    ensures rest { reverse values.new.items ≡ below (below (reverse values.old.items)) }
{
    let right = take_number(values);
    let left = take_number(values);
    arithmetic(op, kind, left, right)
}

/// An operator on the two newest values.
pub fn compute(m: &mut Machine, pos: Pos, op: Op, kind: ValueKind) -> Result<Option<Ending>, Memory>
    ensures { IfOk result (λ halt. Matches (compute pos op kind (top (below (reverse m.old.values.items)))
        (top (reverse m.old.values.items)) (todos m.old.tasks.items) (state_of m.old)) halt m.new) }
{
    match combine(&mut m.values, op, kind) {
        Some(n) => {
            m.values.push(Value::Int(n))?;
            Ok(None)
        }
        None => Ok(Some(Ending::Stop(pos))),
    }
}

/// The newest value plus or minus 1.
pub fn step_one(
    m: &mut Machine,
    pos: Pos,
    op: Op,
    kind: ValueKind,
) -> Result<Option<Ending>, Memory>
    ensures { IfOk result (λ halt. Matches (step_one pos op kind (top (reverse m.old.values.items))
        (todos m.old.tasks.items) (state_of m.old)) halt m.new) }
{
    let left = take_number(&mut m.values);
    match arithmetic(op, kind, left, 1) {
        Some(n) => {
            m.values.push(Value::Int(n))?;
            Ok(None)
        }
        None => Ok(Some(Ending::Stop(pos))),
    }
}

/// The newest value with the other sign.
pub fn minus(m: &mut Machine, pos: Pos, kind: ValueKind) -> Result<Option<Ending>, Memory>
    ensures { IfOk result (λ halt. Matches (minus pos kind (top (reverse m.old.values.items))
        (todos m.old.tasks.items) (state_of m.old)) halt m.new) }
{
    let right = take_number(&mut m.values);
    match arithmetic(Op::Sub, kind, 0, right) {
        Some(n) => {
            m.values.push(Value::Int(n))?;
            Ok(None)
        }
        None => Ok(Some(Ending::Stop(pos))),
    }
}

/// The newest value in another kind.
pub fn fit(m: &mut Machine, pos: Pos, kind: ValueKind) -> Result<Option<Ending>, Memory>
    ensures { IfOk result (λ halt. Matches (fit pos kind (top (reverse m.old.values.items))
        (todos m.old.tasks.items) (state_of m.old)) halt m.new) }
{
    let n = take_number(&mut m.values);
    if fits(kind, n) {
        m.values.push(Value::Int(n))?;
        Ok(None)
    } else {
        Ok(Some(Ending::Stop(pos)))
    }
}

/// A comparison of the two newest values.
pub fn compare(m: &mut Machine, pos: Pos, cmp: Cmp) -> Result<Option<Ending>, Memory>
    ensures { IfOk result (λ halt. Matches (compare pos cmp (top (below (reverse m.old.values.items)))
        (top (reverse m.old.values.items)) (todos m.old.tasks.items) (state_of m.old)) halt m.new) }
{
    let right = take(&mut m.values);
    let left = take(&mut m.values);
    m.values.push(truth(cmp.holds(left, right)))?;
    Ok(None)
}

/// The newest value is false.
pub fn negate(m: &mut Machine) -> Result<Option<Ending>, Memory>
    ensures { IfOk result (λ halt. Matches (replace_value [] (truth (not (is_true
        (top (reverse m.old.values.items))))) (todos m.old.tasks.items) (state_of m.old)) halt m.new) }
{
    let value = take(&mut m.values);
    m.values.push(truth(!is_true(value)))?;
    Ok(None)
}

/// The newest value is true.
pub fn to_truth(m: &mut Machine) -> Result<Option<Ending>, Memory>
    ensures { IfOk result (λ halt. Matches (replace_value [] (truth (is_true (top (reverse m.old.values.items))))
        (todos m.old.tasks.items) (state_of m.old)) halt m.new) }
{
    let value = take(&mut m.values);
    m.values.push(truth(is_true(value)))?;
    Ok(None)
}

fn is_wanted(on: bool, left: bool) -> bool
    ensures { result ≡ is_wanted on left }
{
    if on { left } else { !left }
}

/// The right side of `&&` or `||`, where it is wanted; else the left side decides.
pub fn right_side<'a>(
    m: &mut Machine<'a>,
    on: bool,
    part: &'a Node,
) -> Result<Option<Ending>, Memory>
    ensures { IfOk result (λ halt. Matches (right_side on (top (reverse m.old.values.items)) (value_view part.now)
        (todos m.old.tasks.items) (state_of m.old)) halt m.new) }
{
    if is_wanted(on, is_true(take(&mut m.values))) {
        evaluate_then(m, Task::Truth, part)
    } else {
        m.values.push(truth(!on))?;
        Ok(None)
    }
}
