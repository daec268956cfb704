// The run of a function.
ghost use Rattle.std.specs.Prelude.{◌≡◌, [], IfOk};
ghost use Rattle.pungi_resolved.specs.ActionView.{function_view};
ghost use Rattle.pungi_meaning.specs.Machine.{frames_of, functions_of, todos, state_of};
ghost use Rattle.pungi_meaning.specs.Outcomes.{end_of, end_at, end_after, IsCounted};
ghost use Rattle.pungi_meaning.specs.Run.{body_of, start, run_from, run_of};

use crate::Outcome;
use crate::counted_world::CountedWorld;
use crate::frames::{begin_body, go_on};
use crate::function::param_locals;
use crate::machine::{Ending, Machine, Waiting};
use crate::step::step;
use pungi_base::{Choice, Entry, Memory};
use pungi_resolved::Function;
use std::alloc::Global;

/// The run of a function before its first step, where nothing is to be done yet.
fn begin<'a>(alloc: Global, f: &Function, entry: &Entry) -> Result<Machine<'a>, Memory>
    ensures todos { IfOk result (λ m. todos m.tasks.items ≡ []) }
    ensures state { IfOk result (λ m. state_of m ≡ start (function_view f.now) entry.now) }
{
    let locals = param_locals(alloc, f, entry.args.as_slice())?;
    let world = CountedWorld::start(alloc, entry)?;
    Ok(Machine {
        world,
        used: Vec::new(alloc),
        locals,
        values: Vec::new(alloc),
        tasks: Vec::new(alloc),
    })
}

/// Makes at most `fuel` steps, where these functions wait. How the run ended, if it did.
fn go<'a>(
    m: &mut Machine<'a>,
    frames: &mut Vec<Waiting<'a>>,
    alloc: Global,
    functions: &'a [Option<Function>],
    choices: &[Choice],
    fuel: u32,
) -> Result<Option<Ending>, Memory>
    ensures { IfOk result (λ ending. end_after ending m.new
        ≡ (run_from (functions_of functions.now) choices.now fuel (frames_of frames.old.items)
        (todos m.old.tasks.items) (state_of m.old)).end) }
{
    for i in 0..fuel {
        let halt = step(m, alloc, choices)?;
        if let Some(ending) = go_on(m, frames, alloc, functions, halt)? {
            return Ok(Some(ending));
        }
    }
    Ok(None)
}

/// Does the body of a function, in at most `fuel` steps. How the run ended, if it did.
fn do_body<'a>(
    m: &mut Machine<'a>,
    alloc: Global,
    functions: &'a [Option<Function>],
    f: &'a Function,
    choices: &[Choice],
    fuel: u32,
) -> Result<Option<Ending>, Memory>
    requires { todos m.now.tasks.items ≡ [] }
    ensures { IfOk result (λ ending. end_after ending m.new
        ≡ (run_from (functions_of functions.now) choices.now fuel [] (body_of (function_view f.now))
        (state_of m.old)).end) }
{
    let mut frames = Vec::new(alloc);
    begin_body(m, f)?;
    go(m, &mut frames, alloc, functions, choices, fuel)
}

/// The outcome of a run that ends here.
fn end_at(m: Machine, ending: Ending) -> Outcome
    ensures end { end_of result ≡ end_at ending m.entry }
    ensures counted { IsCounted result }
{
    match ending {
        Ending::Call(_, _, _, _) => Outcome::OutOfFuel,
        Ending::Leave(pos, value) => Outcome::Returned {
            world: m.world.into_world(),
            value,
            pos,
            used: m.used,
        },
        Ending::Stop(pos) => Outcome::Stopped(pos),
        Ending::Want => Outcome::NeedsChoice,
    }
}

/// Runs a function from an entry, for at most `fuel` steps, with these choices, in a file of these functions (C11
/// 5.1.2.3, 6.5, 6.8). A function in which a rule holds has no place among them. The world that it returns can be
/// counted.
pub fn run(
    alloc: Global,
    functions: &[Option<Function>],
    f: &Function,
    entry: &Entry,
    choices: &[Choice],
    fuel: u32,
) -> Result<Outcome, Memory>
    ensures end { IfOk result (λ outcome. end_of outcome
        ≡ (run_of (functions_of functions.now) (function_view f.now) entry.now choices.now fuel).end) }
    ensures counted { IfOk result (λ outcome. IsCounted outcome) }
{
    let mut m = begin(alloc, f, entry)?;
    match do_body(&mut m, alloc, functions, f, choices, fuel)? {
        Some(ending) => Ok(end_at(m, ending)),
        None => Ok(Outcome::OutOfFuel),
    }
}
