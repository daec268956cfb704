// The functions that wait while one that they called runs (C11 6.5.2.2).
ghost use Rattle.std.specs.Prelude.{◌≡◌, ℕ, ◌∷◌, ◌++◌, [], drop, reverse, IfOk, OnOk, Some};
ghost use Rattle.pungi_resolved.specs.ActionView.{function_view};
ghost use Rattle.pungi_meaning.specs.Frames.{resumed, waiting};
ghost use Rattle.pungi_meaning.specs.Machine.{frame_of, frames_of, functions_of, todos, state_of, Matches};
ghost use Rattle.pungi_meaning.specs.Outcomes.{GoesOn};
ghost use Rattle.pungi_meaning.specs.Run.{after_return, body_of, entered, run_after};
ghost use Rattle.pungi_meaning.specs.Todo.{Step, Calls};
ghost use Rattle.pungi_meaning.specs.Work.{newest};

use crate::call::take_newest;
use crate::expr::do_first;
use crate::function::{closing_brace, is_void, numbered, param_locals};
use crate::machine::{Ending, Machine, Waiting};
use crate::task::Task;
use pungi_base::{Memory, Pos, Value};
use pungi_resolved::Function;
use pungi_world::Content;
use std::alloc::Global;
use std::mem;

/// The body of a function, and then its closing brace.
pub fn begin_body<'a>(m: &mut Machine<'a>, f: &'a Function) -> Result<(), Memory>
    ensures todos { OnOk result (todos m.new.tasks.items ≡ body_of (function_view f.now) ++ todos m.old.tasks.items) }
    ensures state { OnOk result (state_of m.new ≡ state_of m.old) }
{
    do_first(m, Task::End(closing_brace(&f.body), is_void(f.result)))?;
    do_first(m, Task::Exec(&f.body))?;
    Ok(())
}

/// The function that runs waits for another, which has these locals.
fn wait<'a>(
    m: &mut Machine<'a>,
    frames: &mut Vec<Waiting<'a>>,
    alloc: Global,
    call: Pos,
    has_value: bool,
    locals: Vec<Content>,
) -> Result<(), Memory>
    ensures frames { OnOk result (frames_of frames.new.items
        ≡ waiting call has_value (todos m.old.tasks.items) (state_of m.old) ∷ frames_of frames.old.items) }
    ensures todos { OnOk result (todos m.new.tasks.items ≡ []) }
    ensures state { OnOk result (state_of m.new ≡ record (state_of m.old) { locals = locals.items; values = [] }) }
{
    let locals = mem::replace(&mut m.locals, locals);
    let values = mem::replace(&mut m.values, Vec::new(alloc));
    let tasks = mem::replace(&mut m.tasks, Vec::new(alloc));
    frames.push(Waiting {
        call,
        has_value,
        locals,
        values,
        tasks,
    })?;
    Ok(())
}

/// A function is entered with these arguments.
fn enter_with<'a>(
    m: &mut Machine<'a>,
    frames: &mut Vec<Waiting<'a>>,
    alloc: Global,
    f: &'a Function,
    pos: Pos,
    has_value: bool,
    args: &[Value],
) -> Result<Option<Ending>, Memory>
    ensures { (number : ℕ) → IfOk result (λ halt. GoesOn (λ go. entered go (frames_of frames.old.items) pos number
        has_value args.now (todos m.old.tasks.items) (state_of m.old) (Some (function_view f.now))) halt
        frames.new.items m.new) }
{
    if args.len() != f.params.len() {
        return Ok(Some(Ending::Stop(pos)));
    }
    let locals = param_locals(alloc, f, args)?;
    wait(m, frames, alloc, pos, has_value, locals)?;
    begin_body(m, f)?;
    Ok(None)
}

/// A function of the file is entered with the newest values. One that isn't there, and one that takes another number of
/// arguments, stops at the call.
fn enter<'a>(
    m: &mut Machine<'a>,
    frames: &mut Vec<Waiting<'a>>,
    alloc: Global,
    functions: &'a [Option<Function>],
    pos: Pos,
    number: usize,
    has_value: bool,
    count: usize,
) -> Result<Option<Ending>, Memory>
    ensures { IfOk result (λ halt. GoesOn (λ go. run_after (functions_of functions.now) go (frames_of frames.old.items)
        (Calls pos number has_value (newest count (reverse m.old.values.items)) (todos m.old.tasks.items)
        (record (state_of m.old) { values = drop count (reverse m.old.values.items) }))) halt frames.new.items m.new) }
{
    let args = take_newest(alloc, &mut m.values, count)?;
    match numbered(functions, number) {
        Some(f) => enter_with(m, frames, alloc, f, pos, has_value, &args),
        None => Ok(Some(Ending::Stop(pos))),
    }
}

/// A function that waited runs again.
fn restore<'a>(m: &mut Machine<'a>, waiting: Waiting<'a>)
    ensures todos { todos m.new.tasks.items ≡ (frame_of waiting.entry).todos }
    ensures state { state_of m.new
        ≡ resumed (frame_of waiting.entry) m.old.world m.old.used.items (frame_of waiting.entry).values }
{
    let Waiting {
        locals,
        values,
        tasks,
        ..
    } = waiting;
    m.locals = locals;
    m.values = values;
    m.tasks = tasks;
}

/// A function that waited runs again, with the value of its call.
fn restore_with<'a>(m: &mut Machine<'a>, waiting: Waiting<'a>, value: Value) -> Result<(), Memory>
    ensures todos { OnOk result (todos m.new.tasks.items ≡ (frame_of waiting.entry).todos) }
    ensures state { OnOk result (state_of m.new
        ≡ resumed (frame_of waiting.entry) m.old.world m.old.used.items (value ∷ (frame_of waiting.entry).values)) }
{
    restore(m, waiting);
    m.values.push(value)?;
    Ok(())
}

/// The function that runs returned: the newest of those that wait goes on. Where none waits, the run ends.
fn resume<'a>(
    m: &mut Machine<'a>,
    frames: &mut Vec<Waiting<'a>>,
    pos: Pos,
    value: Option<Value>,
) -> Result<Option<Ending>, Memory>
    ensures { IfOk result (λ halt. GoesOn (λ go. after_return go (frames_of frames.old.items) m.old.world value pos
        m.old.used.items) halt frames.new.items m.new) }
{
    let Some(waiting) = frames.pop() else {
        return Ok(Some(Ending::Leave(pos, value)));
    };
    if !waiting.has_value {
        restore(m, waiting);
        return Ok(None);
    }
    match value {
        Some(value) => {
            restore_with(m, waiting, value)?;
            Ok(None)
        }
        None => Ok(Some(Ending::Stop(waiting.call))),
    }
}

/// What comes of a step: a function is entered, or one that waits goes on, or the run ends, or nothing of these.
pub fn go_on<'a>(
    m: &mut Machine<'a>,
    frames: &mut Vec<Waiting<'a>>,
    alloc: Global,
    functions: &'a [Option<Function>],
    halt: Option<Ending>,
) -> Result<Option<Ending>, Memory>
    ensures { IfOk result (λ after. (st : Step) → Matches st halt m.old
        → GoesOn (λ go. run_after (functions_of functions.now) go (frames_of frames.old.items) st) after
        frames.new.items m.new) }
{
    match halt {
        Some(Ending::Call(pos, number, has_value, count)) => {
            enter(m, frames, alloc, functions, pos, number, has_value, count)
        }
        Some(Ending::Leave(pos, value)) => resume(m, frames, pos, value),
        Some(Ending::Stop(pos)) => Ok(Some(Ending::Stop(pos))),
        Some(Ending::Want) => Ok(Some(Ending::Want)),
        None => Ok(None),
    }
}
