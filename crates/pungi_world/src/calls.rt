ghost use Rattle.std.specs.Prelude.{◌≡◌, ◌+◌, ◌^◌, ◌<◌, pos, if◌then◌else◌, length, OnOk, IsTrue};
ghost use Rattle.pungi_world.specs.Counts.{by_one, hand_over, AreWithin};
ghost use Rattle.pungi_world.specs.Choices.{answer_of};
ghost use Rattle.pungi_world.specs.Effects.{Gives};
ghost use Rattle.pungi_world.specs.Calls.{lacks, stops, with_new_reference, is_success, is_taken, is_taken_at};
ghost use Rattle.pungi_world.specs.Calls.{take_over, first_of, call_answer, with_answer, is_call_success};
ghost use Rattle.pungi_world.specs.Calls.{described_world, own_world, call_effect};

use crate::choices::{answer_of, is_between};
use crate::counts::{Way, add_value, count_value, hand_over, mark_made};
use crate::{Effect, Halt, World};
use pungi_api::{Answer, CallAnswer, OwnEffect, Param, Signature, Take};
use pungi_base::{Choice, Memory, Value};

/// Whether an argument is `NULL` where the parameter may not be.
fn lacks(param: Param, value: Value) -> bool
    ensures { result ≡ lacks param value }
{
    match param {
        Param::Object | Param::Text => matches!(value, Value::Null),
        Param::ObjectOrNull
        | Param::Int
        | Param::Long
        | Param::Size
        | Param::TextOrNull
        | Param::ModuleDef => false,
    }
}

fn stops(params: &[Param], args: &[Value]) -> bool
    ensures { result ≡ stops params.now args.now }
{
    params
        .iter()
        .zip(args)
        .any(|(param, value)| lacks(*param, *value))
}

/// The object of an answer is there, the count of a new reference rises, and an object that the call makes is one that
/// was made.
fn with_new_reference(world: &mut World, answer: Answer, value: Option<Value>) -> Result<(), Memory>
    requires { AreWithin (2 ^ 61) world.old }
    ensures { OnOk result (world.new ≡ with_new_reference answer world.old value) }
{
    let Some(value) = value else {
        return Ok(());
    };
    add_value(world, value)?;
    match answer {
        Answer::New => count_value(world, value, Way::Up),
        Answer::Made => {
            count_value(world, value, Way::Up);
            mark_made(world, value);
        }
        _ => {}
    }
    Ok(())
}

/// Whether an answer says that the call succeeded.
fn is_success(answer: Answer, value: Option<Value>) -> bool
    ensures { result ≡ is_success answer value }
{
    match (answer, value) {
        (Answer::New, Some(Value::Object(_))) => true,
        (Answer::Status, Some(Value::Int(n))) => is_between(0, 0, n),
        _ => false,
    }
}

/// Whether a call takes over the argument of such a parameter.
fn is_taken(success: bool, take: Take) -> bool
    ensures { result ≡ is_taken success take }
{
    match take {
        Take::Never => false,
        Take::Always => true,
        Take::OnSuccess => success,
    }
}

/// Whether a call takes over the argument at this place.
fn is_taken_at(success: bool, takes: &[Take], i: usize) -> bool
    ensures { result ≡ is_taken_at success takes.now i }
{
    if i < takes.len() {
        is_taken(success, takes[i])
    } else {
        false
    }
}

/// An argument is handed over, if it is taken over.
fn take_one(world: &mut World, taken: bool, value: Value)
    requires { AreWithin (2 ^ 62) world.old }
    ensures { world.new ≡ (if taken then hand_over world.old value else world.old) }
{
    if taken {
        hand_over(world, value);
    }
}

/// The arguments that a call takes over are handed over.
fn take_over(world: &mut World, success: bool, takes: &[Take], args: &[Value])
    requires within { AreWithin (2 ^ 61 + 1) world.old }
    requires few { length args.now < 2 ^ 60 }
    ensures { world.new ≡ take_over world.old success takes.now args.now }
{
    for (i, value) in args.iter().enumerate() {
        take_one(world, is_taken_at(success, takes, i), *value);
    }
}

/// The first argument.
fn first_of(args: &[Value]) -> Value
    ensures { result ≡ first_of args.now }
{
    match args {
        [value, ..] => *value,
        [] => Value::Null,
    }
}

/// What a call returns, and how many choices it uses.
fn call_answer(
    objects: usize,
    answer: CallAnswer,
    args: &[Value],
    choices: &[Choice],
) -> Result<(Option<Value>, usize), Halt>
    ensures { result ≡ call_answer objects answer args.now choices.now }
{
    match answer {
        CallAnswer::Of(answer) => answer_of(objects, answer, choices),
        CallAnswer::Argument => Ok((Some(first_of(args)), 0)),
    }
}

/// The world after the answer of a call.
fn with_answer(world: &mut World, answer: CallAnswer, value: Option<Value>) -> Result<(), Memory>
    requires { AreWithin (2 ^ 61) world.old }
    ensures { OnOk result (world.new ≡ with_answer answer world.old value) }
{
    match answer {
        CallAnswer::Of(answer) => with_new_reference(world, answer, value),
        CallAnswer::Argument => Ok(()),
    }
}

/// Whether an answer says that the call succeeded.
fn is_call_success(answer: CallAnswer, value: Option<Value>) -> bool
    ensures { result ≡ is_call_success answer value }
{
    match answer {
        CallAnswer::Of(answer) => is_success(answer, value),
        CallAnswer::Argument => false,
    }
}

/// The world after a call that returns this value, as far as its answer and what it takes over say.
fn finish(
    world: &mut World,
    signature: &Signature,
    args: &[Value],
    value: Option<Value>,
) -> Result<(), Memory>
    requires within { AreWithin (2 ^ 61) world.old }
    requires few { length args.now < 2 ^ 60 }
    ensures { OnOk result (world.new ≡ described_world signature.now args.now world.old value) }
{
    with_answer(world, signature.answer, value)?;
    let success = is_call_success(signature.answer, value);
    take_over(world, success, signature.takes.as_slice(), args);
    Ok(())
}

/// The world after a call that returns this value.
fn finish_own(
    world: &mut World,
    signature: &Signature,
    args: &[Value],
    value: Option<Value>,
) -> Result<(), Memory>
    requires within { AreWithin (2 ^ 61) world.old }
    requires few { length args.now < 2 ^ 60 }
    ensures { OnOk result (world.new ≡ own_world signature.now.own signature.now args.now world.old value) }
{
    match signature.own {
        None => finish(world, signature, args, value)?,
        Some(OwnEffect::IncRef) => count_value(world, first_of(args), Way::Up),
        Some(OwnEffect::DecRef) => count_value(world, first_of(args), Way::Down),
    }
    Ok(())
}

/// What a call does.
pub fn call(
    world: &mut World,
    signature: &Signature,
    args: &[Value],
    choices: &[Choice],
) -> Result<Effect, Halt>
    requires within { AreWithin (2 ^ 61) world.old }
    requires few { length args.now < 2 ^ 60 }
    ensures { Gives result world.new (call_effect world.old signature.now args.now choices.now) }
{
    if stops(signature.params.as_slice(), args) {
        return Err(Halt::Stopped);
    }
    let (value, used) = call_answer(world.accounts.len(), signature.answer, args, choices)?;
    finish_own(world, signature, args, value)?;
    Ok(Effect { value, used })
}
