// One step.
ghost use Rattle.std.specs.Prelude.{◌≡◌, ◌<◌, ◌∷◌, [], IfOk, MatchOption, None, Some, length, map, option_map, reverse};
ghost use Rattle.std.specs.Prelude.{slice_get};
ghost use Rattle.pungi_resolved.specs.ValueView.{value_view};
ghost use Rattle.pungi_resolved.specs.ActionView.{action_view};
ghost use Rattle.pungi_meaning.specs.Machine.{loop_of, todo_of, todos, state_of, Matches};
ghost use Rattle.pungi_meaning.specs.Run.{act};
ghost use Rattle.pungi_meaning.specs.Stmts.{bind, next_stmt};
ghost use Rattle.pungi_meaning.specs.Todo.{ToAgain, ToChoose, ToPick, ToTurn};

use crate::arith::{compare, compute, fit, minus, negate, right_side, step_one, to_truth};
use crate::call::next_arg;
use crate::expr::{do_first, empty_after, evaluate, replace_value, step_after};
use crate::is_true;
use crate::machine::{Ending, Machine};
use crate::output::next_output;
use crate::slot::{load_field, load_old, store};
use crate::stack::{newest, put, take};
use crate::stmt::{body_first, declare_next, evaluate_first, execute, switch, test_loop};
use crate::task::{Task, Turns};
use pungi_base::{Choice, Memory, Pos};
use pungi_resolved::{Action, Value as Node};
use pungi_world::Content;
use std::alloc::Global;

/// The statement at this place of a block, if there is one.
fn action_at<'a>(list: &'a [Action], i: usize) -> Option<&'a Action>
    ensures { MatchOption result (slice_get list.now i ≡ None) (λ a. (slice_get list.now i ≡ Some a.now)
        × (i < length list.now)) }
{
    if i < list.len() { Some(&list[i]) } else { None }
}

/// A statement of a block, and then the next one.
fn go_on<'a>(
    m: &mut Machine<'a>,
    list: &'a [Action],
    i: usize,
    action: &'a Action,
) -> Result<Option<Ending>, Memory>
    requires { i < length list.now }
    ensures { IfOk result (λ halt. Matches (next_stmt (map action_view list.now) i (Some (action_view action.now))
        (todos m.old.tasks.items) (state_of m.old)) halt m.new) }
{
    body_first(m, Task::Rest(list, i + 1), action)
}

/// The next statement of a block.
#[tactic(auto, using(crate::proofs::ListLemmas::mapped_get))]
fn next_stmt<'a>(
    m: &mut Machine<'a>,
    list: &'a [Action],
    i: usize,
) -> Result<Option<Ending>, Memory>
    ensures { IfOk result (λ halt. Matches (next_stmt (map action_view list.now) i
        (slice_get (map action_view list.now) i) (todos m.old.tasks.items) (state_of m.old)) halt m.new) }
{
    match action_at(list, i) {
        Some(action) => go_on(m, list, i, action),
        None => Ok(None),
    }
}

/// One of two values.
fn pick<'a>(m: &mut Machine<'a>, part: &'a Node, other: &'a Node) -> Result<Option<Ending>, Memory>
    ensures { IfOk result (λ halt. Matches (act [] (ToPick (value_view part.now) (value_view other.now)
        ∷ todos m.old.tasks.items) (state_of m.old)) halt m.new) }
{
    if is_true(take(&mut m.values)) {
        do_first(m, Task::Eval(part))
    } else {
        do_first(m, Task::Eval(other))
    }
}

/// One of two statements.
fn choose<'a>(
    m: &mut Machine<'a>,
    part: &'a Action,
    other: Option<&'a Action>,
) -> Result<Option<Ending>, Memory>
    ensures { IfOk result (λ halt. Matches (act [] (ToChoose (action_view part.now)
        (option_map (λ b. action_view b.now) other.entry) ∷ todos m.old.tasks.items) (state_of m.old)) halt m.new) }
{
    if is_true(take(&mut m.values)) {
        return do_first(m, Task::Exec(part));
    }
    match other {
        Some(other) => do_first(m, Task::Exec(other)),
        None => Ok(None),
    }
}

/// The body of a loop, where its test holds.
fn turn<'a>(m: &mut Machine<'a>, turns: Turns<'a>) -> Result<Option<Ending>, Memory>
    ensures { IfOk result (λ halt. Matches (act [] (ToTurn (loop_of turns.entry) ∷ todos m.old.tasks.items)
        (state_of m.old)) halt m.new) }
{
    if is_true(take(&mut m.values)) {
        body_first(m, Task::Again(turns), turns.body)
    } else {
        Ok(None)
    }
}

/// What a loop does after its body, and then its next turn.
fn turn_again<'a>(m: &mut Machine<'a>, turns: Turns<'a>) -> Result<Option<Ending>, Memory>
    ensures { IfOk result (λ halt. Matches (act [] (ToAgain (loop_of turns.entry) ∷ todos m.old.tasks.items)
        (state_of m.old)) halt m.new) }
{
    do_first(m, Task::Test(turns))?;
    evaluate_first(m, turns.increment)
}

/// A variable gets its first value.
fn bind(m: &mut Machine, local: usize)
    ensures { Matches (bind local (todos m.old.tasks.items) (state_of m.old)) None m.new }
{
    let value = take(&mut m.values);
    put(&mut m.locals, local, Content::Holds(value));
}

/// One step of a task.
fn operate<'a>(
    m: &mut Machine<'a>,
    alloc: Global,
    choices: &[Choice],
    task: Task<'a>,
) -> Result<Option<Ending>, Memory>
    ensures { IfOk result (λ halt. Matches (act choices.now (todo_of task.entry ∷ todos m.old.tasks.items)
        (state_of m.old)) halt m.new) }
{
    match task {
        Task::Eval(node) => evaluate(m, alloc, choices, node),
        Task::Load(pos, kind, tag, field) => {
            let base = take(&mut m.values);
            load_field(m, alloc, choices, pos, kind, base, tag, field)
        }
        Task::Old(kind, place) => load_old(m, alloc, choices, kind, place),
        Task::Step(pos, op, kind) => step_one(m, pos, op, kind),
        Task::Postfix(pos, mark, kind, place) => step_after(m, pos, mark, kind, place),
        Task::Empty(kind, place) => empty_after(m, kind, place),
        Task::Yield(value) => replace_value(m, value),
        Task::Minus(pos, kind) => minus(m, pos, kind),
        Task::Compute(pos, op, kind) => compute(m, pos, op, kind),
        Task::Fit(pos, kind) => fit(m, pos, kind),
        Task::Compare(pos, cmp) => compare(m, pos, cmp),
        Task::Negate => negate(m),
        Task::Right(on, part) => right_side(m, on, part),
        Task::Truth => to_truth(m),
        Task::Pick(a, b) => pick(m, a, b),
        Task::Store(kind, place) => store(m, alloc, choices, kind, place),
        Task::Args(pos, target, args, i) => next_arg(m, alloc, choices, pos, target, args, i),
        Task::Outputs(pos, steps) => next_output(m, alloc, choices, pos, steps),
        Task::Exec(action) => execute(m, action),
        Task::Forget => {
            m.values.clear();
            Ok(None)
        }
        Task::Declare(list) => declare_next(m, list),
        Task::Bind(local) => {
            bind(m, local);
            Ok(None)
        }
        Task::Choose(part, other) => choose(m, part, other),
        Task::Rest(list, i) => next_stmt(m, list, i),
        Task::Test(turns) => test_loop(m, turns),
        Task::Turn(turns) => turn(m, turns),
        Task::Again(turns) => turn_again(m, turns),
        Task::Switch(pos, body) => {
            let value = newest(&m.values);
            switch(m, pos, value, body)
        }
        Task::SwitchEnd => Ok(None),
        Task::Return(pos) => Ok(Some(Ending::Leave(pos, Some(newest(&m.values))))),
        Task::End(pos, true) => Ok(Some(Ending::Leave(pos, None))),
        Task::End(pos, false) => Ok(Some(Ending::Stop(pos))),
    }
}

/// One step: what is to be done next is done, or leaves its parts and its remainder.
pub fn step<'a>(
    m: &mut Machine<'a>,
    alloc: Global,
    choices: &[Choice],
) -> Result<Option<Ending>, Memory>
    ensures { IfOk result (λ halt. Matches (act choices.now (todos m.old.tasks.items) (state_of m.old)) halt m.new) }
{
    match m.tasks.pop() {
        Some(task) => operate(m, alloc, choices, task),
        None => Ok(Some(Ending::Stop(Pos { line: 0, col: 0 }))),
    }
}
