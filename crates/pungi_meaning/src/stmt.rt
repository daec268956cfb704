// Statements.
ghost use Rattle.std.specs.Prelude.{◌≡◌, ◌∷◌, IfOk, OnOk, map, option_map, None, Some};
ghost use Rattle.pungi_resolved.specs.ValueView.{value_view, optional_view};
ghost use Rattle.pungi_resolved.specs.ActionView.{action_view, actions_of, declared_view};
ghost use Rattle.pungi_meaning.specs.Machine.{loop_of, todo_of, todos, state_of, Matches};
ghost use Rattle.pungi_meaning.specs.Stmts.{evaluate_first, test_loop, declare_next, bears_case, is_default};
ghost use Rattle.pungi_meaning.specs.Stmts.{first_from, target, enter_at, switch, execute};
ghost use Rattle.pungi_meaning.specs.Todo.{ToExec, ToDeclare, ToRest, ToTest, listed};
ghost use Rattle.pungi_meaning.specs.Jumps.{a_loop};
ghost use Rattle.pungi_meaning.specs.Work.{below, action_locals, block_locals, unset_locals};

use crate::Cmp;
use crate::expr::{do_first, evaluate_then};
use crate::machine::{Ending, Machine};
use crate::stack::{put, take};
use crate::task::{Task, Turns};
use crate::unwind::{after_break, after_continue, from_label};
use pungi_base::{Memory, Pos, Value};
use pungi_resolved::{Action, ActionNode, DeclaredLocal, Value as Node};
use pungi_world::Content;

/// The locals that are declared here hold nothing.
fn unset_locals(locals: &mut [Content], list: &[DeclaredLocal])
    ensures { locals.new ≡ unset_locals (map declared_view list.now) locals.old }
{
    for reached in list {
        put(locals, reached.number, Content::Unset);
    }
}

/// The locals that a statement declares hold nothing.
fn unset_action_locals(locals: &mut [Content], action: &Action)
    ensures { locals.new ≡ unset_locals (action_locals (action_view action.now)) locals.old }
{
    match &action.node {
        ActionNode::Declare(list) => unset_locals(locals, list.as_slice()),
        ActionNode::Block(_, _)
        | ActionNode::Do(_)
        | ActionNode::If(_, _)
        | ActionNode::IfElse(_, _, _)
        | ActionNode::While(_, _)
        | ActionNode::DoWhile(_, _)
        | ActionNode::For(_, _, _, _, _)
        | ActionNode::Switch(_, _)
        | ActionNode::Case(_, _)
        | ActionNode::Default(_)
        | ActionNode::Label(_, _)
        | ActionNode::Goto(_)
        | ActionNode::Break
        | ActionNode::Continue
        | ActionNode::Return(_, _) => {}
    }
}

/// The locals of a block hold nothing.
fn unset_block_locals(locals: &mut [Content], list: &[Action])
    ensures { locals.new ≡ unset_locals (block_locals (listed (actions_of (map action_view list.now)))) locals.old }
{
    for action in list {
        unset_action_locals(locals, action);
    }
}

/// The value in a box, where there is one.
pub fn unboxed(value: &Option<Box<Node>>) -> Option<&Node>
    ensures { option_map (λ v. value_view v.now) result ≡ optional_view value.now }
{
    match value {
        Some(value) => Some(&**value),
        None => None,
    }
}

/// What is done first, if anything.
pub fn evaluate_first<'a>(
    m: &mut Machine<'a>,
    first: Option<&'a Node>,
) -> Result<Option<Ending>, Memory>
    ensures goes { IfOk result (λ halt. halt ≡ None) }
    ensures todos { OnOk result (todos m.new.tasks.items
        ≡ evaluate_first (option_map (λ v. value_view v.now) first.entry) (todos m.old.tasks.items)) }
    ensures state { OnOk result (state_of m.new ≡ state_of m.old) }
{
    match first {
        Some(value) => evaluate_then(m, Task::Forget, value),
        None => Ok(None),
    }
}

/// A statement, and what comes after it.
pub fn body_first<'a>(
    m: &mut Machine<'a>,
    then: Task<'a>,
    body: &'a Action,
) -> Result<Option<Ending>, Memory>
    ensures goes { IfOk result (λ halt. halt ≡ None) }
    ensures todos { OnOk result (todos m.new.tasks.items
        ≡ ToExec (action_view body.now) ∷ todo_of then.entry ∷ todos m.old.tasks.items) }
    ensures state { OnOk result (state_of m.new ≡ state_of m.old) }
{
    do_first(m, then)?;
    do_first(m, Task::Exec(body))
}

/// A loop's test, or its body where it has none.
pub fn test_loop<'a>(m: &mut Machine<'a>, turns: Turns<'a>) -> Result<Option<Ending>, Memory>
    ensures goes { IfOk result (λ halt. halt ≡ None) }
    ensures todos { OnOk result (todos m.new.tasks.items ≡ test_loop (loop_of turns.entry) (todos m.old.tasks.items)) }
    ensures state { OnOk result (state_of m.new ≡ state_of m.old) }
{
    match turns.test {
        Some(value) => evaluate_then(m, Task::Turn(turns), value),
        None => body_first(m, Task::Again(turns), turns.body),
    }
}

/// The next declared variable: its value comes first, and without one it holds nothing.
pub fn declare_next<'a>(
    m: &mut Machine<'a>,
    list: &'a [DeclaredLocal],
) -> Result<Option<Ending>, Memory>
    ensures { IfOk result (λ halt. Matches (declare_next (map declared_view list.now) (todos m.old.tasks.items)
        (state_of m.old)) halt m.new) }
{
    let Some((reached, rest)) = list.split_first() else {
        return Ok(None);
    };
    do_first(m, Task::Declare(rest))?;
    match &reached.value {
        Some(value) => evaluate_then(m, Task::Bind(reached.number), value),
        None => {
            put(&mut m.locals, reached.number, Content::Unset);
            Ok(None)
        }
    }
}

/// A statement stands after the case of this value.
fn bears_case(value: Value, action: &Action) -> bool
    ensures { result ≡ bears_case value (action_view action.now) }
{
    match &action.node {
        ActionNode::Case(case, part) => {
            Cmp::Equal.holds(value, Value::Int(*case)) || bears_case(value, part)
        }
        ActionNode::Default(part) => bears_case(value, part),
        ActionNode::Label(_, part) => bears_case(value, part),
        _ => false,
    }
}

/// A statement stands after `default`.
fn is_default(action: &Action) -> bool
    ensures { result ≡ is_default (action_view action.now) }
{
    match &action.node {
        ActionNode::Default(_) => true,
        ActionNode::Case(_, part) => is_default(part),
        ActionNode::Label(_, part) => is_default(part),
        _ => false,
    }
}

/// The place of the first statement after the case of this value.
fn case_place(value: Value, block: &[Action]) -> Option<usize>
    ensures { result ≡ first_from (bears_case value) 0 (map action_view block.now) }
{
    for (i, action) in block.iter().enumerate() {
        if bears_case(value, action) {
            return Some(i);
        }
    }
    None
}

/// The place of the first statement after `default`.
fn default_place(block: &[Action]) -> Option<usize>
    ensures { result ≡ first_from is_default 0 (map action_view block.now) }
{
    for (i, action) in block.iter().enumerate() {
        if is_default(action) {
            return Some(i);
        }
    }
    None
}

/// The place in a block where a `switch` goes on.
fn target(value: Value, block: &[Action]) -> Option<usize>
    ensures { result ≡ target value (map action_view block.now) }
{
    match case_place(value, block) {
        Some(place) => Some(place),
        None => default_place(block),
    }
}

/// A `switch` goes on at this place of its block, or past it.
fn enter_at<'a>(
    m: &mut Machine<'a>,
    list: &'a [Action],
    place: Option<usize>,
) -> Result<Option<Ending>, Memory>
    ensures goes { IfOk result (λ halt. halt ≡ None) }
    ensures todos { OnOk result (todos m.new.tasks.items
        ≡ enter_at (map action_view list.now) place (todos m.old.tasks.items)) }
    ensures state { OnOk result (state_of m.new ≡ state_of m.old) }
{
    match place {
        Some(place) => {
            do_first(m, Task::SwitchEnd)?;
            do_first(m, Task::Rest(list, place))
        }
        None => Ok(None),
    }
}

/// A `switch` of this value goes on in a block, as the definition lists it.
fn to_case<'a>(
    m: &mut Machine<'a>,
    value: Value,
    list: &'a [Action],
) -> Result<Option<Ending>, Memory>
    ensures goes { IfOk result (λ halt. halt ≡ None) }
    ensures todos { OnOk result (todos m.new.tasks.items
        ≡ enter_at (listed (actions_of (map action_view list.now))) (target value
        (listed (actions_of (map action_view list.now)))) (todos m.old.tasks.items)) }
    ensures state { OnOk result (state_of m.new ≡ state_of m.old) }
{
    enter_at(m, list, target(value, list))
}

/// The block of a `switch`, once its value is known.
fn switch_block<'a>(
    m: &mut Machine<'a>,
    value: Value,
    list: &'a [Action],
) -> Result<Option<Ending>, Memory>
    ensures goes { IfOk result (λ halt. halt ≡ None) }
    ensures todos { OnOk result (todos m.new.tasks.items
        ≡ enter_at (listed (actions_of (map action_view list.now))) (target value
        (listed (actions_of (map action_view list.now)))) (todos m.old.tasks.items)) }
    ensures state { OnOk result (state_of m.new ≡ record (state_of m.old) {
      locals = unset_locals
          (block_locals (listed (actions_of (map action_view list.now)))) (state_of m.old).locals;
      values = below
          (state_of m.old).values;
    }) }
{
    take(&mut m.values);
    unset_block_locals(&mut m.locals, list);
    to_case(m, value, list)
}

/// A `switch`, once its value is known.
pub fn switch<'a>(
    m: &mut Machine<'a>,
    pos: Pos,
    value: Value,
    body: &'a Action,
) -> Result<Option<Ending>, Memory>
    ensures { IfOk result (λ halt. Matches (switch pos value (action_view body.now) (todos m.old.tasks.items)
        (state_of m.old)) halt m.new) }
{
    match &body.node {
        ActionNode::Block(list, _) => switch_block(m, value, list),
        _ => {
            take(&mut m.values);
            Ok(None)
        }
    }
}

/// All statements of a block come first.
fn all_of<'a>(m: &mut Machine<'a>, list: &'a [Action]) -> Result<Option<Ending>, Memory>
    ensures goes { IfOk result (λ halt. halt ≡ None) }
    ensures todos { OnOk result (todos m.new.tasks.items
        ≡ ToRest (listed (actions_of (map action_view list.now))) 0 ∷ todos m.old.tasks.items) }
    ensures state { OnOk result (state_of m.new ≡ state_of m.old) }
{
    do_first(m, Task::Rest(list, 0))
}

/// A block is entered: its locals hold nothing.
fn enter_block<'a>(m: &mut Machine<'a>, list: &'a [Action]) -> Result<Option<Ending>, Memory>
    ensures goes { IfOk result (λ halt. halt ≡ None) }
    ensures todos { OnOk result (todos m.new.tasks.items
        ≡ ToRest (listed (actions_of (map action_view list.now))) 0 ∷ todos m.old.tasks.items) }
    ensures state { OnOk result (state_of m.new ≡ record (state_of m.old) {
      locals = unset_locals
          (block_locals (listed (actions_of (map action_view list.now)))) (state_of m.old).locals;
    }) }
{
    unset_block_locals(&mut m.locals, list);
    all_of(m, list)
}

/// A `for` begins: the locals that it declares hold nothing.
fn begin_for<'a>(
    m: &mut Machine<'a>,
    list: &'a [DeclaredLocal],
    first: Option<&'a Node>,
    turns: Turns<'a>,
) -> Result<Option<Ending>, Memory>
    ensures goes { IfOk result (λ halt. halt ≡ None) }
    ensures todos { OnOk result (todos m.new.tasks.items
        ≡ ToDeclare (map declared_view list.now) ∷ evaluate_first (option_map (λ v. value_view v.now) first.entry)
        (test_loop (loop_of turns.entry) (todos m.old.tasks.items))) }
    ensures state { OnOk result (state_of m.new ≡ record (state_of m.old) {
      locals = unset_locals
          (map declared_view list.now) (state_of m.old).locals;
    }) }
{
    unset_locals(&mut m.locals, list);
    test_loop(m, turns)?;
    evaluate_first(m, first)?;
    do_first(m, Task::Declare(list))
}

/// A loop with a test that does nothing after its body.
pub fn simple_loop<'a>(test: &'a Node, body: &'a Action) -> Turns<'a>
    ensures { loop_of result ≡ a_loop (Some (value_view test.now)) None (action_view body.now) }
{
    Turns {
        test: Some(test),
        increment: None,
        body,
    }
}

/// A statement is done, or leaves its parts and its remainder.
pub fn execute<'a>(m: &mut Machine<'a>, action: &'a Action) -> Result<Option<Ending>, Memory>
    ensures { IfOk result (λ halt. Matches (execute (action_view action.now) (todos m.old.tasks.items)
        (state_of m.old)) halt m.new) }
{
    match &action.node {
        ActionNode::Block(list, _) => enter_block(m, list),
        ActionNode::Declare(list) => do_first(m, Task::Declare(list)),
        ActionNode::Do(value) => evaluate_first(m, unboxed(value)),
        ActionNode::If(test, part) => evaluate_then(m, Task::Choose(part, None), test),
        ActionNode::IfElse(test, part, other) => evaluate_then(
            m,
            Task::Choose(part, Some(other)),
            test,
        ),
        ActionNode::While(value, body) => evaluate_then(
            m,
            Task::Turn(simple_loop(value, body)),
            value,
        ),
        ActionNode::DoWhile(body, value) => {
            body_first(m, Task::Again(simple_loop(value, body)), body)
        }
        ActionNode::For(list, first, test, increment, body) => {
            let (test, increment) = (unboxed(test), unboxed(increment));
            begin_for(
                m,
                list,
                unboxed(first),
                Turns {
                    test,
                    increment,
                    body,
                },
            )
        }
        ActionNode::Switch(value, body) => evaluate_then(m, Task::Switch(action.pos, body), value),
        ActionNode::Case(_, part) => do_first(m, Task::Exec(part)),
        ActionNode::Default(part) => do_first(m, Task::Exec(part)),
        ActionNode::Label(_, part) => do_first(m, Task::Exec(part)),
        ActionNode::Goto(label) => from_label(&mut m.tasks, *label),
        ActionNode::Break => after_break(&mut m.tasks),
        ActionNode::Continue => after_continue(&mut m.tasks),
        ActionNode::Return(_, None) => Ok(Some(Ending::Leave(action.pos, None))),
        ActionNode::Return(_, Some(value)) => evaluate_then(m, Task::Return(action.pos), value),
    }
}
