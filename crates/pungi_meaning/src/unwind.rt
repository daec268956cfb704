// Where `goto`, `break` and `continue` lead.
ghost use Rattle.std.specs.Prelude.{◌≡◌, ◌∷◌, IfOk, None, OnOk, is_some, map};
ghost use Rattle.pungi_resolved.specs.ActionView.{action_view};
ghost use Rattle.pungi_meaning.specs.Machine.{todo_of, todos};
ghost use Rattle.pungi_meaning.specs.Jumps.{enter, enter_among, found_or, from_label, after_break, after_continue};

use crate::expr::push_task;
use crate::machine::Ending;
use crate::stmt::{simple_loop, unboxed};
use crate::task::{Task, Turns};
use pungi_base::{Memory, Name};
use pungi_resolved::{Action, ActionNode};

/// What remains of a part from a label on, in front of what follows the part.
#[cycle(entering)]
fn enter_before<'a>(
    tasks: &mut Vec<Task<'a>>,
    label: Name,
    part: &'a Action,
    then: Task<'a>,
) -> Result<bool, Memory>
    ensures found { IfOk result (λ found. found ≡ is_some (enter label (action_view part.now)
        (todo_of then.entry ∷ todos tasks.old.items))) }
    ensures tasks { OnOk result (todos tasks.new.items
        ≡ found_or (enter label (action_view part.now) (todo_of then.entry ∷ todos tasks.old.items))
        (todos tasks.old.items)) }
{
    push_task(tasks, then)?;
    let found = enter(tasks, label, part)?;
    if !found {
        tasks.pop();
    }
    Ok(found)
}

/// What remains of a statement from a label on. A label in an inner block isn't found.
#[cycle(entering)]
fn enter<'a>(tasks: &mut Vec<Task<'a>>, label: Name, action: &'a Action) -> Result<bool, Memory>
    ensures found { IfOk result (λ found. found ≡ is_some (enter label (action_view action.now)
        (todos tasks.old.items))) }
    ensures tasks { OnOk result (todos tasks.new.items
        ≡ found_or (enter label (action_view action.now) (todos tasks.old.items)) (todos tasks.old.items)) }
{
    match &action.node {
        ActionNode::Label(name, part) => {
            if name.0 == label.0 {
                push_task(tasks, Task::Exec(part))?;
                return Ok(true);
            }
            enter(tasks, label, part)
        }
        ActionNode::Case(_, part) => enter(tasks, label, part),
        ActionNode::Default(part) => enter(tasks, label, part),
        ActionNode::If(_, part) => enter(tasks, label, part),
        ActionNode::IfElse(_, part, other) => {
            if enter(tasks, label, part)? {
                return Ok(true);
            }
            enter(tasks, label, other)
        }
        ActionNode::While(test, body) => {
            enter_before(tasks, label, body, Task::Again(simple_loop(test, body)))
        }
        ActionNode::DoWhile(body, test) => {
            enter_before(tasks, label, body, Task::Again(simple_loop(test, body)))
        }
        ActionNode::For(_, _, test, increment, body) => {
            let (test, increment) = (unboxed(test), unboxed(increment));
            let again = Task::Again(Turns {
                test,
                increment,
                body,
            });
            enter_before(tasks, label, body, again)
        }
        ActionNode::Switch(_, body) => enter_before(tasks, label, body, Task::SwitchEnd),
        _ => Ok(false),
    }
}

/// What remains of a block's statements from a label on.
fn enter_block<'a>(
    tasks: &mut Vec<Task<'a>>,
    label: Name,
    block: &'a [Action],
) -> Result<bool, Memory>
    ensures found { IfOk result (λ found. found ≡ is_some (enter_among label (map action_view block.now) 0
        (map action_view block.now) (todos tasks.old.items))) }
    ensures tasks { OnOk result (todos tasks.new.items
        ≡ found_or (enter_among label (map action_view block.now) 0 (map action_view block.now)
        (todos tasks.old.items)) (todos tasks.old.items)) }
{
    for (i, action) in block.iter().enumerate() {
        if enter_before(tasks, label, action, Task::Rest(block, i + 1))? {
            return Ok(true);
        }
    }
    Ok(false)
}

/// What remains from a label on.
pub fn from_label(tasks: &mut Vec<Task>, label: Name) -> Result<Option<Ending>, Memory>
    ensures goes { IfOk result (λ halt. halt ≡ None) }
    ensures tasks { OnOk result (todos tasks.new.items ≡ from_label label (todos tasks.old.items)) }
{
    while let Some(task) = tasks.pop() {
        match task {
            Task::End(_, _) => {
                push_task(tasks, task)?;
                return Ok(None);
            }
            Task::Rest(block, _) => {
                if enter_block(tasks, label, block)? {
                    return Ok(None);
                }
            }
            _ => {}
        }
    }
    Ok(None)
}

/// What remains after the innermost loop or `switch`.
pub fn after_break(tasks: &mut Vec<Task>) -> Result<Option<Ending>, Memory>
    ensures goes { IfOk result (λ halt. halt ≡ None) }
    ensures tasks { OnOk result (todos tasks.new.items ≡ after_break (todos tasks.old.items)) }
{
    while let Some(task) = tasks.pop() {
        match task {
            Task::End(_, _) => {
                push_task(tasks, task)?;
                return Ok(None);
            }
            Task::Again(_) | Task::SwitchEnd => return Ok(None),
            _ => {}
        }
    }
    Ok(None)
}

/// What remains from the next turn of the innermost loop on.
pub fn after_continue(tasks: &mut Vec<Task>) -> Result<Option<Ending>, Memory>
    ensures goes { IfOk result (λ halt. halt ≡ None) }
    ensures tasks { OnOk result (todos tasks.new.items ≡ after_continue (todos tasks.old.items)) }
{
    while let Some(task) = tasks.pop() {
        match task {
            Task::End(_, _) | Task::Again(_) => {
                push_task(tasks, task)?;
                return Ok(None);
            }
            _ => {}
        }
    }
    Ok(None)
}
