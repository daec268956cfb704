// Calls.
ghost use Rattle.std.specs.Prelude.{◌≡◌, ◌<◌, [], drop, length, map, reverse, slice_get, IfOk, OnOk, MatchOption, None};
ghost use Rattle.std.specs.Prelude.{Some};
ghost use Rattle.pungi_resolved.specs.ValueView.{value_view};
ghost use Rattle.pungi_types.specs.Operators.{is_void};
ghost use Rattle.pungi_meaning.specs.Exprs.{call as call_step, call_row, has_missing, is_missing, next_arg};
ghost use Rattle.pungi_meaning.specs.Machine.{target_of, todos, state_of, Matches};
ghost use Rattle.pungi_meaning.specs.Todo.{UnlessNull, WithOutputs};
ghost use Rattle.pungi_meaning.specs.Work.{newest};

use crate::expr::evaluate_then;
use crate::function::is_void;
use crate::is_true;
use crate::machine::{Ending, Machine};
use crate::stack::{note_used, unused};
use crate::task::{Target, Task};
use pungi_api::{Param, Signature};
use pungi_base::{Choice, Memory, Pos, Value};
use pungi_resolved::{OutputStep, Value as Node};
use pungi_world::{ApiCall, Halt};
use std::alloc::Global;

/// The newest values, taken off. The oldest of them comes first.
#[tactic(auto, using(crate::proofs::NewestLemmas::newest_range, crate::proofs::NewestLemmas::newest_left))]
pub fn take_newest(
    alloc: Global,
    values: &mut Vec<Value>,
    count: usize,
) -> Result<Vec<Value>, Memory>
    ensures taken { IfOk result (λ taken. taken.items ≡ newest count (reverse values.old.items)) }
    ensures rest { OnOk result (reverse values.new.items ≡ drop count (reverse values.old.items)) }
{
    let place = values.len().saturating_sub(count);
    let taken = Vec::from_slice(alloc, &values[place..])?;
    values.truncate(place);
    Ok(taken)
}

/// A call of the API with the newest values.
fn call_row(
    m: &mut Machine,
    alloc: Global,
    choices: &[Choice],
    pos: Pos,
    signature: &Signature,
    count: usize,
) -> Result<Option<Ending>, Memory>
    ensures { IfOk result (λ halt. Matches (call_row choices.now pos signature.now count
        (todos m.old.tasks.items) (state_of m.old)) halt m.new) }
{
    let args = take_newest(alloc, &mut m.values, count)?;
    let rest = unused(choices, m.used.len());
    let api = ApiCall {
        signature,
        args: &args,
    };
    match m.world.apply(alloc, &api, rest) {
        Ok(effect) => {
            note_used(&mut m.used, pos, effect.used)?;
            if let Some(value) = effect.value {
                m.values.push(value)?;
            }
            Ok(None)
        }
        Err(Halt::Stopped) => Ok(Some(Ending::Stop(pos))),
        Err(Halt::NeedsChoice) => Ok(Some(Ending::Want)),
        Err(Halt::Memory) => Err(Memory),
    }
}

/// Whether such an argument is `NULL` where it may be.
fn is_missing(param: Param, value: Value) -> bool
    ensures { result ≡ is_missing param value }
{
    matches!(param, Param::ObjectOrNull) && !is_true(value)
}

/// Whether some argument is.
fn has_missing(params: &[Param], args: &[Value]) -> bool
    ensures { result ≡ has_missing params.now args.now }
{
    params
        .iter()
        .zip(args)
        .any(|(param, value)| is_missing(*param, *value))
}

/// The newest values, the oldest of them first.
#[tactic(auto, using(crate::proofs::NewestLemmas::newest_range))]
fn newest_values(values: &[Value], count: usize) -> &[Value]
    ensures { result.now ≡ newest count (reverse values.now) }
{
    &values[values.len().saturating_sub(count)..]
}

/// A call that returns `NULL` where an argument that is an object is `NULL`.
fn call_unless_null(
    m: &mut Machine,
    alloc: Global,
    choices: &[Choice],
    pos: Pos,
    signature: &Signature,
    count: usize,
) -> Result<Option<Ending>, Memory>
    ensures { IfOk result (λ halt. Matches (call_step choices.now pos (UnlessNull signature.now) count
        (todos m.old.tasks.items) (state_of m.old)) halt m.new) }
{
    if has_missing(signature.params.as_slice(), newest_values(&m.values, count)) {
        let null = signature.returning_null(alloc)?;
        call_row(m, alloc, choices, pos, &null, count)
    } else {
        call_row(m, alloc, choices, pos, signature, count)
    }
}

/// A call that ends with a number, after which these steps come.
fn call_with_outputs<'a>(
    m: &mut Machine<'a>,
    alloc: Global,
    choices: &[Choice],
    pos: Pos,
    signature: &Signature,
    steps: &'a [OutputStep],
    count: usize,
) -> Result<Option<Ending>, Memory>
    ensures { IfOk result (λ halt. Matches (call_step choices.now pos (WithOutputs signature.now steps.now) count
        (todos m.old.tasks.items) (state_of m.old)) halt m.new) }
{
    m.tasks.push(Task::Outputs(pos, steps))?;
    call_row(m, alloc, choices, pos, signature, count)
}

/// A call with the newest values. A function of the file is entered where the run goes on, so they stay.
fn call<'a>(
    m: &mut Machine<'a>,
    alloc: Global,
    choices: &[Choice],
    pos: Pos,
    target: Target<'a>,
    count: usize,
) -> Result<Option<Ending>, Memory>
    ensures { IfOk result (λ halt. Matches (call_step choices.now pos (target_of target.entry) count
        (todos m.old.tasks.items) (state_of m.old)) halt m.new) }
{
    match target {
        Target::Row(signature) => call_row(m, alloc, choices, pos, signature, count),
        Target::UnlessNull(signature) => {
            call_unless_null(m, alloc, choices, pos, signature, count)
        }
        Target::WithOutputs(signature, steps) => {
            call_with_outputs(m, alloc, choices, pos, signature, steps, count)
        }
        Target::Defined(f) => Ok(Some(Ending::Call(pos, f.number, !is_void(f.result), count))),
    }
}

/// The argument at this place, if there is one.
fn arg_at<'a>(args: &'a [Node], i: usize) -> Option<&'a Node>
    ensures { MatchOption result (slice_get args.now i ≡ None) (λ a. (slice_get args.now i ≡ Some a.now)
        × (i < length args.now)) }
{
    if i < args.len() { Some(&args[i]) } else { None }
}

/// An argument of a call, and then the next one.
fn go_on<'a>(
    m: &mut Machine<'a>,
    pos: Pos,
    target: Target<'a>,
    args: &'a [Node],
    i: usize,
    arg: &'a Node,
) -> Result<Option<Ending>, Memory>
    requires { i < length args.now }
    ensures { IfOk result (λ halt. Matches (next_arg [] pos (target_of target.entry) (map value_view args.now) i
        (Some (value_view arg.now)) (todos m.old.tasks.items) (state_of m.old)) halt m.new) }
{
    evaluate_then(m, Task::Args(pos, target, args, i + 1), arg)
}

/// The next argument of a call, or the call.
#[tactic(auto, using(crate::proofs::ListLemmas::mapped_get))]
pub fn next_arg<'a>(
    m: &mut Machine<'a>,
    alloc: Global,
    choices: &[Choice],
    pos: Pos,
    target: Target<'a>,
    args: &'a [Node],
    i: usize,
) -> Result<Option<Ending>, Memory>
    ensures { IfOk result (λ halt. Matches (next_arg choices.now pos (target_of target.entry)
        (map value_view args.now) i (slice_get (map value_view args.now) i) (todos m.old.tasks.items)
        (state_of m.old)) halt m.new) }
{
    match arg_at(args, i) {
        Some(arg) => go_on(m, pos, target, args, i, arg),
        None => call(m, alloc, choices, pos, target, args.len()),
    }
}
