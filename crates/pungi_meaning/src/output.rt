// What comes once a call that writes variables has ended with a number.
ghost use Rattle.std.specs.Prelude.{◌≡◌, [], IfOk};
ghost use Rattle.pungi_meaning.specs.Exprs.{next_output, write_local, write_output, end_output};
ghost use Rattle.pungi_meaning.specs.Machine.{todos, state_of, Matches};

use crate::machine::{Ending, Machine};
use crate::stack::{newest, note_used, put, take, unused};
use crate::task::Task;
use crate::{Cmp, truth};
use pungi_api::{Answer, output_signature};
use pungi_base::{Choice, Memory, Pos, Value};
use pungi_resolved::OutputStep;
use pungi_world::{ApiCall, Content, Halt};
use std::alloc::Global;

/// A local gets a value, where there is one.
fn write_local(m: &mut Machine, local: usize, value: Option<Value>)
    ensures state { state_of m.new ≡ write_local local value (state_of m.old) }
    ensures todos { todos m.new.tasks.items ≡ todos m.old.tasks.items }
{
    match value {
        None => {}
        Some(value) => put(&mut m.locals, local, Content::Holds(value)),
    }
}

/// A local gets such a value.
fn write_output<'a>(
    m: &mut Machine<'a>,
    alloc: Global,
    choices: &[Choice],
    pos: Pos,
    local: usize,
    answer: Answer,
    steps: &'a [OutputStep],
) -> Result<Option<Ending>, Memory>
    ensures { IfOk result (λ halt. Matches (write_output choices.now pos local answer steps.now
        (todos m.old.tasks.items) (state_of m.old)) halt m.new) }
{
    m.tasks.push(Task::Outputs(pos, steps))?;
    let rest = unused(choices, m.used.len());
    let signature = output_signature(alloc, answer);
    let api = ApiCall {
        signature: &signature,
        args: &[],
    };
    match m.world.apply(alloc, &api, rest) {
        Ok(effect) => {
            note_used(&mut m.used, pos, effect.used)?;
            write_local(m, local, effect.value);
            Ok(None)
        }
        Err(Halt::Stopped) => Ok(Some(Ending::Stop(pos))),
        Err(Halt::NeedsChoice) => Ok(Some(Ending::Want)),
        Err(Halt::Memory) => Err(Memory),
    }
}

/// The call has its result, or the next step comes.
fn end_output<'a>(
    m: &mut Machine<'a>,
    ends: bool,
    gives: bool,
    pos: Pos,
    steps: &'a [OutputStep],
) -> Result<Option<Ending>, Memory>
    ensures { IfOk result (λ halt. Matches (end_output ends gives pos steps.now [] (todos m.old.tasks.items)
        (state_of m.old)) halt m.new) }
{
    if ends {
        take(&mut m.values);
        m.values.push(truth(gives))?;
    } else {
        m.tasks.push(Task::Outputs(pos, steps))?;
    }
    Ok(None)
}

/// The next step, or the result of a call that has succeeded.
pub fn next_output<'a>(
    m: &mut Machine<'a>,
    alloc: Global,
    choices: &[Choice],
    pos: Pos,
    steps: &'a [OutputStep],
) -> Result<Option<Ending>, Memory>
    ensures { IfOk result (λ halt. Matches (next_output choices.now pos steps.now (todos m.old.tasks.items)
        (state_of m.old)) halt m.new) }
{
    match steps {
        [] => end_output(m, true, true, pos, steps),
        [OutputStep::Ends(number, gives), rest @ ..] => {
            let ends = Cmp::Equal.holds(newest(&m.values), Value::Int(*number));
            end_output(m, ends, *gives, pos, rest)
        }
        [OutputStep::Writes(local, answer), rest @ ..] => {
            write_output(m, alloc, choices, pos, *local, *answer, rest)
        }
    }
}
