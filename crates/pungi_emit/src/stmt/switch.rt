// The comparisons of a `switch`.
ghost use Rattle.std.specs.Prelude.{◌≡◌, ◌+◌, ◌*◌, ◌≤◌, ◌++◌, length, map, OnOk};
ghost use Rattle.pungi_code.specs.Limits.{most_instructions};
ghost use Rattle.pungi_resolved.specs.ActionView.{action_view};
ghost use Rattle.pungi_meaning.specs.Stmts.{cases_of, is_default};
ghost use Rattle.pungi_emit.specs.stmt.Cases.{cases_at, default_at, is_block};
ghost use Rattle.pungi_layout.specs.code.Scopes.{placed_cases, label_or};
ghost use Rattle.pungi_layout.specs.code.StmtCode.{case_code};

use crate::expr::case::emit_case;
use pungi_base::{Memory, Pos, Seq};
use pungi_code::{Atom, Line};
use pungi_resolved::{Action, ActionNode};

/// The comparisons with the cases that a statement stands after.
#[tactic(auto, using(crate::proofs::stmt::Cases::one_case))]
fn emit_own_cases(
    code: &mut Seq<Line>,
    pos: Pos,
    value: u32,
    outcome: u32,
    place: u32,
    action: &Action,
) -> Result<(), Memory>
    requires { length code.old + 2 * length (cases_of (action_view action.now)) ≤ most_instructions }
    ensures { OnOk result (code.new ≡ code.old ++ case_code pos value outcome (length code.old)
        (placed_cases place (cases_of (action_view action.now)))) }
{
    match &action.node {
        ActionNode::Case(number, a) => {
            emit_case(code, pos, value, outcome, Atom::Int(*number), place)?;
            emit_own_cases(code, pos, value, outcome, place, a)?;
            Ok(())
        }
        ActionNode::Default(a) | ActionNode::Label(_, a) => {
            emit_own_cases(code, pos, value, outcome, place, a)?;
            Ok(())
        }
        ActionNode::Block(_, _)
        | ActionNode::Declare(_)
        | ActionNode::Do(_)
        | ActionNode::If(_, _)
        | ActionNode::IfElse(_, _, _)
        | ActionNode::While(_, _)
        | ActionNode::DoWhile(_, _)
        | ActionNode::For(_, _, _, _, _)
        | ActionNode::Switch(_, _)
        | ActionNode::Goto(_)
        | ActionNode::Break
        | ActionNode::Continue
        | ActionNode::Return(_, _) => Ok(()),
    }
}

/// The comparisons with the cases of statements that begin at these places.
pub fn emit_cases(
    code: &mut Seq<Line>,
    pos: Pos,
    value: u32,
    outcome: u32,
    list: &[Action],
    starts: &[u32],
) -> Result<(), Memory>
    requires starts { length list.now ≡ length starts.now }
    requires long { length code.old + 2 * length (cases_at (map action_view list.now) starts.now) ≤ most_instructions }
    ensures { OnOk result (code.new ≡ code.old ++ case_code pos value outcome (length code.old)
        (cases_at (map action_view list.now) starts.now)) }
{
    for i in 0..list.len() {
        emit_own_cases(code, pos, value, outcome, starts[i], &list[i])?;
    }
    Ok(())
}

/// A statement stands after `default`.
fn is_default(action: &Action) -> bool
    ensures { result ≡ is_default (action_view action.now) }
{
    match &action.node {
        ActionNode::Default(_) => true,
        ActionNode::Case(_, a) | ActionNode::Label(_, a) => is_default(a),
        ActionNode::Block(_, _)
        | ActionNode::Declare(_)
        | ActionNode::Do(_)
        | ActionNode::If(_, _)
        | ActionNode::IfElse(_, _, _)
        | ActionNode::While(_, _)
        | ActionNode::DoWhile(_, _)
        | ActionNode::For(_, _, _, _, _)
        | ActionNode::Switch(_, _)
        | ActionNode::Goto(_)
        | ActionNode::Break
        | ActionNode::Continue
        | ActionNode::Return(_, _) => false,
    }
}

/// A statement is a block.
pub fn is_block(action: &Action) -> bool
    ensures { result ≡ is_block (action_view action.now) }
{
    match &action.node {
        ActionNode::Block(_, _) => true,
        ActionNode::Declare(_)
        | ActionNode::Do(_)
        | ActionNode::If(_, _)
        | ActionNode::IfElse(_, _, _)
        | ActionNode::While(_, _)
        | ActionNode::DoWhile(_, _)
        | ActionNode::For(_, _, _, _, _)
        | ActionNode::Switch(_, _)
        | ActionNode::Case(_, _)
        | ActionNode::Default(_)
        | ActionNode::Label(_, _)
        | ActionNode::Goto(_)
        | ActionNode::Break
        | ActionNode::Continue
        | ActionNode::Return(_, _) => false,
    }
}

/// The place of the statement after `default`, where the statements begin at these places; else the end.
pub fn default_or(list: &[Action], starts: &[u32], end: u32) -> u32
    requires { length list.now ≡ length starts.now }
    ensures { result ≡ label_or (default_at (map action_view list.now) starts.now) end }
{
    for i in 0..list.len() {
        if is_default(&list[i]) {
            return starts[i];
        }
    }
    end
}
