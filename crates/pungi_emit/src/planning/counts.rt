// How many locals a block declares, and how many cases it has.
ghost use Rattle.std.specs.Prelude.{◌≡◌, ◌≤◌, length, map};
ghost use Rattle.pungi_code.specs.Limits.{most_instructions};
ghost use Rattle.pungi_resolved.specs.ActionView.{action_view};
ghost use Rattle.pungi_meaning.specs.Stmts.{cases_of, block_cases};
ghost use Rattle.pungi_meaning.specs.Work.{block_locals};

use pungi_resolved::{Action, ActionNode};

/// How many locals the statements of a block declare.
pub fn declared_count(list: &[Action]) -> u32
    requires { length (block_locals (map action_view list.now)) ≤ most_instructions }
    ensures { result ≡ length (block_locals (map action_view list.now)) }
{
    let mut total = 0;
    for action in list {
        if let ActionNode::Declare(reached) = &action.node {
            total += reached.len() as u32;
        }
    }
    total
}

/// How many cases a statement stands after.
fn own_cases(action: &Action) -> u32
    requires { length (cases_of (action_view action.now)) ≤ most_instructions }
    ensures { result ≡ length (cases_of (action_view action.now)) }
{
    match &action.node {
        ActionNode::Case(_, a) => own_cases(a) + 1,
        ActionNode::Default(a) | ActionNode::Label(_, a) => own_cases(a),
        ActionNode::Block(_, _)
        | ActionNode::Declare(_)
        | ActionNode::Do(_)
        | ActionNode::If(_, _)
        | ActionNode::IfElse(_, _, _)
        | ActionNode::While(_, _)
        | ActionNode::DoWhile(_, _)
        | ActionNode::For(_, _, _, _, _)
        | ActionNode::Switch(_, _)
        | ActionNode::Goto(_)
        | ActionNode::Break
        | ActionNode::Continue
        | ActionNode::Return(_, _) => 0,
    }
}

/// How many cases the statements of a `switch` stand after.
pub fn cases_count(list: &[Action]) -> u32
    requires { length (block_cases (map action_view list.now)) ≤ most_instructions }
    ensures { result ≡ length (block_cases (map action_view list.now)) }
{
    let mut total = 0;
    for action in list {
        total += own_cases(action);
    }
    total
}
