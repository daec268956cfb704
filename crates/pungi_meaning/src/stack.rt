// The values that wait for their operator, the newest last.
ghost use Rattle.std.specs.Prelude.{◌≡◌, ◌∷◌, drop, length, replicate, reverse, slice_set, ◌++◌, OnOk};
ghost use Rattle.pungi_meaning.specs.Values.{number_of};
ghost use Rattle.pungi_meaning.specs.Work.{top, below, content_at};

use pungi_base::{Choice, Memory, Pos, Value};
use pungi_world::Content;

/// The newest value, taken off.
pub fn take(values: &mut Vec<Value>) -> Value
    ensures value { result ≡ top (reverse values.old.items) }
    ensures rest { reverse values.new.items ≡ below (reverse values.old.items) }
{
    match values.pop() {
        Some(value) => value,
        None => Value::Null,
    }
}

/// The newest value, left where it is.
pub fn newest(values: &[Value]) -> Value
    ensures { result ≡ top (reverse values.now) }
{
    match values.last() {
        Some(value) => *value,
        None => Value::Null,
    }
}

/// What a local holds.
pub fn content_at(locals: &[Content], local: usize) -> Content
    ensures { result ≡ content_at locals.now local }
{
    if local < locals.len() {
        locals[local]
    } else {
        Content::Unset
    }
}

/// A local holds something else.
pub fn put(locals: &mut [Content], local: usize, content: Content)
    ensures { locals.new ≡ slice_set locals.old local content }
{
    if local < locals.len() {
        locals[local] = content;
    }
}

/// The choices that are left after so many.
pub fn unused(choices: &[Choice], used: usize) -> &[Choice]
    ensures { result.now ≡ drop used choices.now }
{
    if used < choices.len() {
        &choices[used..]
    } else {
        &[]
    }
}

/// So many choices more were used at a place.
#[tactic(auto, using(crate::proofs::ListLemmas::replicate_step))]
pub fn note_used(used: &mut Vec<Pos>, pos: Pos, count: usize) -> Result<(), Memory>
    ensures { OnOk result (used.new.items ≡ used.old.items ++ replicate count pos) }
{
    for i in 0..count {
        used.push(pos)?;
    }
    Ok(())
}
