// The run of a code that a run of its idle code stands for.
ghost use Rattle.std.specs.Prelude.{◌≡◌, slice_get, take, IfOk};
ghost use Rattle.pungi_idle.specs.RestoredRun.{any_object, restored_at, restored_value, restored_values, restored_run};

use pungi_api::Param;
use pungi_base::{Entry, Memory, Seq, Value, Witness};
use pungi_code::Code;
use std::alloc::Global;

/// The object of this number, where there are so many.
fn any_object(objects: u32, k: usize) -> Value
    ensures { result ≡ any_object objects k }
{
    if k < objects as usize {
        Value::Object(k as u32)
    } else {
        Value::Null
    }
}

fn restored_value(objects: u32, k: usize, kind: Param, value: Value) -> Value
    ensures { result ≡ restored_value objects k kind value }
{
    match (kind, value) {
        (Param::ObjectOrNull, Value::Int(_)) => any_object(objects, k),
        (Param::TextOrNull, Value::Int(_)) => Value::Text,
        _ => value,
    }
}

/// An argument, where the kind of its parameter is known.
fn restored_at(objects: u32, k: usize, kinds: &[Param], i: usize, value: Value) -> Value
    ensures { result ≡ restored_at objects k (slice_get kinds.now i) value }
{
    match kinds.get(i) {
        Some(kind) => restored_value(objects, k, *kind, value),
        None => value,
    }
}

/// The arguments of an entry with so many objects, of which so many are static.
fn restored_values(
    alloc: Global,
    objects: u32,
    statics: u32,
    kinds: &[Param],
    values: &[Value],
) -> Result<Seq<Value>, Memory>
    ensures { IfOk result (λ out. out ≡ restored_values objects statics kinds.now values.now) }
{
    let mut out = Vec::new(alloc);
    for (i, value) in values.iter().enumerate() {
        let k = statics as usize + i;
        out.push(restored_at(objects, k, kinds, i, *value))?;
    }
    Ok(Seq::new(out))
}

/// The kinds of the parameters.
fn param_kinds(code: &Code) -> &[Param]
    ensures { result.now ≡ take code.now.params code.now.vars }
{
    let kinds = code.vars.as_slice();
    let count = kinds.len().min(code.params as usize);
    &kinds[..count]
}

/// The run of a code that a run of its idle code stands for, in a file of so many static objects.
pub fn restored(alloc: Global, statics: u32, code: &Code, run: Witness) -> Result<Witness, Memory>
    ensures { IfOk result (λ w. w ≡ restored_run statics code.now run) }
{
    let objects = run.input.objects;
    let args = restored_values(
        alloc,
        objects,
        statics,
        param_kinds(code),
        run.input.args.as_slice(),
    )?;
    Ok(Witness {
        input: Entry { objects, args },
        choices: run.choices,
    })
}
