// The instructions of statements.
ghost use Rattle.std.specs.Prelude.{◌≡◌, ◌+◌, ◌<◌, ◌≤◌, ◌^◌, ◌++◌, true, length, map, OnOk};
ghost use Rattle.pungi_code.specs.Limits.{most_instructions};
ghost use Rattle.pungi_resolved.specs.ActionView.{declared_view, action_view, actions_of};
ghost use Rattle.pungi_resolved.specs.ValueView.{value_view, optional_view};
ghost use Rattle.pungi_resolved.specs.Actions.{block, if_only, if_else, while, do_while, for, switch};
ghost use Rattle.pungi_emit.specs.stmt.Cases.{is_block, skipped_code};
ghost use Rattle.pungi_emit.specs.stmt.Emits.{Emits, EmitsStmt, EmitsList};
ghost use Rattle.pungi_layout.specs.code.Sizes.{expr_size, stmt_size, stmts_size};
ghost use Rattle.pungi_layout.specs.code.Sound.{IsStmtSound, AreStmtsSound, stmt_nodes, stmts_nodes};
ghost use Rattle.pungi_emit.specs.planning.LabelPlaces.{list_labels, list_starts, env_of};
ghost use Rattle.pungi_emit.specs.planning.Plans.{Begins, switch_from, plan_of, plans_of, skipped_plan};
ghost use Rattle.pungi_layout.specs.code.Scopes.{in_block};
ghost use Rattle.pungi_layout.specs.code.StmtCode.{stmt_code};
ghost use Rattle.pungi_meaning.specs.Run.{nowhere};

use crate::code::instructions::{Around, next_place, put};
use crate::expr::temporary::temp_in;
use crate::planning::labels::plan_labels;
use crate::planning::plan::{Plan, next_planned, planned_all};
use crate::planning::scope::{Labels, Placed, Scope, goto_place};
use crate::stmt::decl::{
    emit_alone, emit_declared, emit_option, emit_return, emit_test, emit_tested, emit_unset,
    emit_unsets,
};
use crate::stmt::switch::{default_or, emit_cases, is_block};
use pungi_base::{Memory, Pos, Seq};
use pungi_code::{Instr, Label, Line};
use pungi_resolved::{Action, ActionNode, DeclaredLocal, Value as Node};

/// `if` without `else`.
#[cycle(emit_stmts)]
fn emit_if(
    code: &mut Seq<Line>,
    around: Around,
    scope: &Scope<'_>,
    plan: &mut Plan<'_>,
    c: &Node,
    body: &Action,
) -> Result<(), Memory>
    requires plan { Begins (plan_of (length code.old) (if_only nowhere (value_view c.now) (action_view body.now)))
        plan.old.left.now }
    requires sound { IsStmtSound around.locals (if_only nowhere (value_view c.now) (action_view body.now)) }
    requires few { stmt_nodes (if_only nowhere (value_view c.now) (action_view body.now)) < 2 ^ 16 }
    requires long { length code.old + stmt_size (if_only nowhere (value_view c.now) (action_view body.now))
        ≤ most_instructions }
    ensures { OnOk result (EmitsStmt around.locals (env_of scope.now) (if_only nowhere (value_view c.now)
        (action_view body.now)) code.old code.new plan.old.left.now plan.new.left.now) }
{
    let other = next_planned(plan);
    emit_test(code, around, c, other)?;
    emit_stmt(code, around, scope, plan, body)?;
    Ok(())
}

/// `if` with `else`.
#[cycle(emit_stmts)]
fn emit_else(
    code: &mut Seq<Line>,
    around: Around,
    scope: &Scope<'_>,
    plan: &mut Plan<'_>,
    pos: Pos,
    c: &Node,
    a: &Action,
    b: &Action,
) -> Result<(), Memory>
    requires plan { Begins (plan_of (length code.old) (if_else pos (value_view c.now) (action_view a.now)
        (action_view b.now))) plan.old.left.now }
    requires sound { IsStmtSound around.locals (if_else pos (value_view c.now) (action_view a.now)
        (action_view b.now)) }
    requires few { stmt_nodes (if_else pos (value_view c.now) (action_view a.now) (action_view b.now)) < 2 ^ 16 }
    requires long { length code.old + stmt_size (if_else pos (value_view c.now) (action_view a.now)
        (action_view b.now)) ≤ most_instructions }
    ensures { OnOk result (EmitsStmt around.locals (env_of scope.now) (if_else pos (value_view c.now)
        (action_view a.now) (action_view b.now)) code.old code.new plan.old.left.now plan.new.left.now) }
{
    let other = next_planned(plan);
    let end = next_planned(plan);
    emit_test(code, around, c, other)?;
    emit_stmt(code, around, scope, plan, a)?;
    put(code, pos, Instr::Jump(Label(end)))?;
    emit_stmt(code, around, scope, plan, b)?;
    Ok(())
}

/// `while`.
#[cycle(emit_stmts)]
fn emit_while(
    code: &mut Seq<Line>,
    around: Around,
    scope: &Scope<'_>,
    plan: &mut Plan<'_>,
    pos: Pos,
    c: &Node,
    body: &Action,
) -> Result<(), Memory>
    requires plan { Begins (plan_of (length code.old) (while pos (value_view c.now) (action_view body.now)))
        plan.old.left.now }
    requires sound { IsStmtSound around.locals (while pos (value_view c.now) (action_view body.now)) }
    requires few { stmt_nodes (while pos (value_view c.now) (action_view body.now)) < 2 ^ 16 }
    requires long { length code.old + stmt_size (while pos (value_view c.now) (action_view body.now))
        ≤ most_instructions }
    ensures { OnOk result (EmitsStmt around.locals (env_of scope.now) (while pos (value_view c.now)
        (action_view body.now)) code.old code.new plan.old.left.now plan.new.left.now) }
{
    let head = next_place(code);
    let again = next_planned(plan);
    let end = again + 1;
    let inner = Scope {
        breaks: end,
        continues: again,
        labels: scope.labels,
    };
    emit_test(code, around, c, end)?;
    emit_stmt(code, around, &inner, plan, body)?;
    put(code, pos, Instr::Jump(Label(head)))?;
    Ok(())
}

/// `do`: the first turn comes without a test.
#[cycle(emit_stmts)]
fn emit_until(
    code: &mut Seq<Line>,
    around: Around,
    scope: &Scope<'_>,
    plan: &mut Plan<'_>,
    pos: Pos,
    body: &Action,
    c: &Node,
) -> Result<(), Memory>
    requires plan { Begins (plan_of (length code.old) (do_while pos (action_view body.now) (value_view c.now)))
        plan.old.left.now }
    requires sound { IsStmtSound around.locals (do_while pos (action_view body.now) (value_view c.now)) }
    requires few { stmt_nodes (do_while pos (action_view body.now) (value_view c.now)) < 2 ^ 16 }
    requires long { length code.old + stmt_size (do_while pos (action_view body.now) (value_view c.now))
        ≤ most_instructions }
    ensures { OnOk result (EmitsStmt around.locals (env_of scope.now) (do_while pos (action_view body.now)
        (value_view c.now)) code.old code.new plan.old.left.now plan.new.left.now) }
{
    let go = next_planned(plan);
    let again = next_planned(plan);
    let end = again + 1;
    let inner = Scope {
        breaks: end,
        continues: again,
        labels: scope.labels,
    };
    put(code, pos, Instr::Jump(Label(go)))?;
    let head = next_place(code);
    emit_test(code, around, c, end)?;
    emit_stmt(code, around, &inner, plan, body)?;
    put(code, pos, Instr::Jump(Label(head)))?;
    Ok(())
}

/// `for`.
#[cycle(emit_stmts)]
fn emit_for(
    code: &mut Seq<Line>,
    around: Around,
    scope: &Scope<'_>,
    plan: &mut Plan<'_>,
    pos: Pos,
    reached: &[DeclaredLocal],
    first: &Option<Box<Node>>,
    c: &Option<Box<Node>>,
    last: &Option<Box<Node>>,
    body: &Action,
) -> Result<(), Memory>
    requires plan { Begins (plan_of (length code.old) (for pos (map declared_view reached.now)
        (optional_view first.now) (optional_view c.now) (optional_view last.now) (action_view body.now)))
        plan.old.left.now }
    requires sound { IsStmtSound around.locals (for pos (map declared_view reached.now) (optional_view first.now)
        (optional_view c.now) (optional_view last.now) (action_view body.now)) }
    requires few { stmt_nodes (for pos (map declared_view reached.now) (optional_view first.now)
        (optional_view c.now) (optional_view last.now) (action_view body.now)) < 2 ^ 16 }
    requires long { length code.old + stmt_size (for pos (map declared_view reached.now) (optional_view first.now)
        (optional_view c.now) (optional_view last.now) (action_view body.now)) ≤ most_instructions }
    ensures { OnOk result (EmitsStmt around.locals (env_of scope.now) (for pos (map declared_view reached.now)
        (optional_view first.now) (optional_view c.now) (optional_view last.now) (action_view body.now)) code.old
        code.new plan.old.left.now plan.new.left.now) }
{
    let again = next_planned(plan);
    let end = next_planned(plan);
    let inner = Scope {
        breaks: end,
        continues: again,
        labels: scope.labels,
    };
    emit_unset(code, around.locals, pos, reached)?;
    emit_declared(code, around, reached)?;
    emit_option(code, around, first)?;
    let head = next_place(code);
    emit_tested(code, around, c, end)?;
    emit_stmt(code, around, &inner, plan, body)?;
    emit_option(code, around, last)?;
    put(code, pos, Instr::Jump(Label(head)))?;
    Ok(())
}

/// Statements, one after another.
#[cycle(emit_stmts)]
fn emit_list(
    code: &mut Seq<Line>,
    around: Around,
    list: &[Action],
    scope: &Scope<'_>,
    plan: &mut Plan<'_>,
) -> Result<(), Memory>
    requires plan { Begins (plans_of (length code.old) (actions_of (map action_view list.now))) plan.old.left.now }
    requires sound { AreStmtsSound around.locals (actions_of (map action_view list.now)) }
    requires few { stmts_nodes (actions_of (map action_view list.now)) < 2 ^ 16 }
    requires long { length code.old + stmts_size (actions_of (map action_view list.now)) ≤ most_instructions }
    ensures { OnOk result (EmitsList around.locals (env_of scope.now) (map action_view list.now) code.old code.new
        plan.old.left.now plan.new.left.now) }
{
    for action in list {
        emit_stmt(code, around, scope, plan, action)?;
    }
    Ok(())
}

/// The statements of a block, which has these labels.
#[cycle(emit_stmts)]
fn emit_inside(
    code: &mut Seq<Line>,
    around: Around,
    list: &[Action],
    scope: &Scope<'_>,
    plan: &mut Plan<'_>,
    own: &[Placed],
) -> Result<(), Memory>
    requires plan { Begins (plans_of (length code.old) (actions_of (map action_view list.now))) plan.old.left.now }
    requires own { own.now ≡ list_labels (length code.old) (map action_view list.now) }
    requires sound { AreStmtsSound around.locals (actions_of (map action_view list.now)) }
    requires few { stmts_nodes (actions_of (map action_view list.now)) < 2 ^ 16 }
    requires long { length code.old + stmts_size (actions_of (map action_view list.now)) ≤ most_instructions }
    ensures { OnOk result (EmitsList around.locals (in_block (env_of scope.now) (length code.old)
        (map action_view list.now)) (map action_view list.now) code.old code.new plan.old.left.now plan.new.left.now) }
{
    let labels = Labels::Inside(own, scope.labels);
    let inner = Scope {
        breaks: scope.breaks,
        continues: scope.continues,
        labels: &labels,
    };
    emit_list(code, around, list, &inner, plan)?;
    Ok(())
}

/// A block.
#[cycle(emit_stmts)]
fn emit_block(
    code: &mut Seq<Line>,
    around: Around,
    list: &[Action],
    scope: &Scope<'_>,
    plan: &mut Plan<'_>,
    pos: Pos,
) -> Result<(), Memory>
    requires plan { Begins (plan_of (length code.old) (block pos (actions_of (map action_view list.now)) nowhere))
        plan.old.left.now }
    requires sound { IsStmtSound around.locals (block pos (actions_of (map action_view list.now)) nowhere) }
    requires few { stmt_nodes (block pos (actions_of (map action_view list.now)) nowhere) < 2 ^ 16 }
    requires long { length code.old + stmt_size (block pos (actions_of (map action_view list.now)) nowhere)
        ≤ most_instructions }
    ensures { OnOk result (EmitsStmt around.locals (env_of scope.now) (block pos
        (actions_of (map action_view list.now)) nowhere) code.old code.new plan.old.left.now plan.new.left.now) }
{
    let own = plan_labels(around.alloc, plan, list)?;
    emit_unsets(code, around.locals, pos, list)?;
    emit_inside(code, around, list, scope, plan, own.as_slice())?;
    Ok(())
}

/// A `switch` over statements that begin at these places: the locals of the block are unset, then come the comparisons,
/// then the statements.
#[cycle(emit_stmts)]
fn emit_switched(
    code: &mut Seq<Line>,
    around: Around,
    list: &[Action],
    scope: &Scope<'_>,
    plan: &mut Plan<'_>,
    pos: Pos,
    node: &Node,
    starts: &[u32],
    own: &[Placed],
    end: u32,
) -> Result<(), Memory>
    requires plan { Begins (plans_of (switch_from (length code.old + expr_size (value_view node.now))
        (map action_view list.now)) (actions_of (map action_view list.now))) plan.old.left.now }
    requires starts { starts.now ≡ list_starts (switch_from (length code.old + expr_size (value_view node.now))
        (map action_view list.now)) (map action_view list.now) }
    requires own { own.now ≡ list_labels (switch_from (length code.old + expr_size (value_view node.now))
        (map action_view list.now)) (map action_view list.now) }
    requires end { end ≡ switch_from (length code.old + expr_size (value_view node.now)) (map action_view list.now)
        + stmts_size (actions_of (map action_view list.now)) }
    requires sound { IsStmtSound around.locals (switch pos (value_view node.now)
        (block nowhere (actions_of (map action_view list.now)) nowhere)) }
    requires few { stmt_nodes (switch pos (value_view node.now) (block nowhere
        (actions_of (map action_view list.now)) nowhere)) < 2 ^ 16 }
    requires long { length code.old + stmt_size (switch pos (value_view node.now)
        (block nowhere (actions_of (map action_view list.now)) nowhere)) ≤ most_instructions }
    ensures { OnOk result (Emits (stmt_code around.locals (env_of scope.now) (length code.old)
        (switch pos (value_view node.now) (block nowhere (actions_of (map action_view list.now)) nowhere)))
        (plans_of (switch_from (length code.old + expr_size (value_view node.now)) (map action_view list.now))
        (actions_of (map action_view list.now))) code.old code.new plan.old.left.now plan.new.left.now) }
{
    let inner = Scope {
        breaks: end,
        continues: scope.continues,
        labels: scope.labels,
    };
    let value = emit_alone(code, around, node)?;
    emit_unsets(code, around.locals, pos, list)?;
    let outcome = temp_in(around.locals, 1, 0);
    emit_cases(code, pos, value, outcome, list, starts)?;
    let other = default_or(list, starts, end);
    put(code, pos, Instr::Jump(Label(other)))?;
    emit_inside(code, around, list, &inner, plan, own)?;
    Ok(())
}

/// A `switch` over a block.
#[cycle(emit_stmts)]
fn emit_switch(
    code: &mut Seq<Line>,
    around: Around,
    list: &[Action],
    scope: &Scope<'_>,
    plan: &mut Plan<'_>,
    pos: Pos,
    node: &Node,
) -> Result<(), Memory>
    requires plan { Begins (plan_of (length code.old) (switch pos (value_view node.now)
        (block nowhere (actions_of (map action_view list.now)) nowhere))) plan.old.left.now }
    requires sound { IsStmtSound around.locals (switch pos (value_view node.now)
        (block nowhere (actions_of (map action_view list.now)) nowhere)) }
    requires few { stmt_nodes (switch pos (value_view node.now) (block nowhere
        (actions_of (map action_view list.now)) nowhere)) < 2 ^ 16 }
    requires long { length code.old + stmt_size (switch pos (value_view node.now)
        (block nowhere (actions_of (map action_view list.now)) nowhere)) ≤ most_instructions }
    ensures { OnOk result (EmitsStmt around.locals (env_of scope.now) (switch pos (value_view node.now)
        (block nowhere (actions_of (map action_view list.now)) nowhere)) code.old code.new plan.old.left.now
        plan.new.left.now) }
{
    let end = next_planned(plan);
    let starts = planned_all(plan, list.len());
    let own = plan_labels(around.alloc, plan, list)?;
    let labels = own.as_slice();
    emit_switched(
        code, around, list, scope, plan, pos, node, starts, labels, end,
    )?;
    Ok(())
}

/// A `switch` over what is no block: nothing of it is done.
#[cycle(emit_stmts)]
fn emit_skipped(
    code: &mut Seq<Line>,
    around: Around,
    scope: &Scope<'_>,
    plan: &mut Plan<'_>,
    pos: Pos,
    node: &Node,
    body: &Action,
) -> Result<(), Memory>
    requires plan { Begins (skipped_plan (length code.old + expr_size (value_view node.now)) (action_view body.now))
        plan.old.left.now }
    requires sound { IsStmtSound around.locals (switch pos (value_view node.now) (action_view body.now)) }
    requires few { stmt_nodes (switch pos (value_view node.now) (action_view body.now)) < 2 ^ 16 }
    requires long { length code.old + (expr_size (value_view node.now) + (1 + stmt_size (action_view body.now)))
        ≤ most_instructions }
    ensures { OnOk result (Emits (skipped_code around.locals (env_of scope.now) (length code.old) pos
        (value_view node.now) (action_view body.now)) (skipped_plan (length code.old
        + expr_size (value_view node.now)) (action_view body.now)) code.old code.new plan.old.left.now
        plan.new.left.now) }
{
    let end = next_planned(plan);
    let inner = Scope {
        breaks: end,
        continues: scope.continues,
        labels: scope.labels,
    };
    let _value = emit_alone(code, around, node)?;
    put(code, pos, Instr::Jump(Label(end)))?;
    emit_stmt(code, around, &inner, plan, body)?;
    Ok(())
}

/// A `switch`.
#[cycle(emit_stmts)]
fn emit_choice(
    code: &mut Seq<Line>,
    around: Around,
    scope: &Scope<'_>,
    plan: &mut Plan<'_>,
    pos: Pos,
    node: &Node,
    body: &Action,
) -> Result<(), Memory>
    requires plan { Begins (plan_of (length code.old) (switch pos (value_view node.now) (action_view body.now)))
        plan.old.left.now }
    requires sound { IsStmtSound around.locals (switch pos (value_view node.now) (action_view body.now)) }
    requires few { stmt_nodes (switch pos (value_view node.now) (action_view body.now)) < 2 ^ 16 }
    requires long { length code.old + stmt_size (switch pos (value_view node.now) (action_view body.now))
        ≤ most_instructions }
    ensures { OnOk result (EmitsStmt around.locals (env_of scope.now) (switch pos (value_view node.now)
        (action_view body.now)) code.old code.new plan.old.left.now plan.new.left.now) }
{
    if is_block(body) {
        emit_body(code, around, body, scope, plan, pos, node)?;
        Ok(())
    } else {
        emit_skipped(code, around, scope, plan, pos, node, body)?;
        Ok(())
    }
}

/// A `switch` over a statement that is a block.
#[cycle(emit_stmts)]
fn emit_body(
    code: &mut Seq<Line>,
    around: Around,
    body: &Action,
    scope: &Scope<'_>,
    plan: &mut Plan<'_>,
    pos: Pos,
    node: &Node,
) -> Result<(), Memory>
    requires plan { Begins (plan_of (length code.old) (switch pos (value_view node.now) (action_view body.now)))
        plan.old.left.now }
    requires sound { IsStmtSound around.locals (switch pos (value_view node.now) (action_view body.now)) }
    requires few { stmt_nodes (switch pos (value_view node.now) (action_view body.now)) < 2 ^ 16 }
    requires long { length code.old + stmt_size (switch pos (value_view node.now) (action_view body.now))
        ≤ most_instructions }
    requires block { is_block (action_view body.now) ≡ true }
    ensures { OnOk result (EmitsStmt around.locals (env_of scope.now) (switch pos (value_view node.now)
        (action_view body.now)) code.old code.new plan.old.left.now plan.new.left.now) }
{
    match &body.node {
        ActionNode::Block(list, _) => {
            emit_switch(code, around, list, scope, plan, pos, node)?;
            Ok(())
        }
        ActionNode::Declare(_)
        | ActionNode::Do(_)
        | ActionNode::If(_, _)
        | ActionNode::IfElse(_, _, _)
        | ActionNode::While(_, _)
        | ActionNode::DoWhile(_, _)
        | ActionNode::For(_, _, _, _, _)
        | ActionNode::Switch(_, _)
        | ActionNode::Case(_, _)
        | ActionNode::Default(_)
        | ActionNode::Label(_, _)
        | ActionNode::Goto(_)
        | ActionNode::Break
        | ActionNode::Continue
        | ActionNode::Return(_, _) => unreachable!(),
    }
}

/// The instructions of a statement, which takes its places from the plan.
#[cycle(emit_stmts)]
#[tactic(auto, using(crate::proofs::planning::Plans::nothing_planned))]
pub fn emit_stmt(
    code: &mut Seq<Line>,
    around: Around,
    scope: &Scope<'_>,
    plan: &mut Plan<'_>,
    action: &Action,
) -> Result<(), Memory>
    requires plan { Begins (plan_of (length code.old) (action_view action.now)) plan.old.left.now }
    requires sound { IsStmtSound around.locals (action_view action.now) }
    requires few { stmt_nodes (action_view action.now) < 2 ^ 16 }
    requires long { length code.old + stmt_size (action_view action.now) ≤ most_instructions }
    ensures { OnOk result (EmitsStmt around.locals (env_of scope.now) (action_view action.now) code.old code.new
        plan.old.left.now plan.new.left.now) }
{
    let pos = action.pos;
    match &action.node {
        ActionNode::Block(list, _) => emit_block(code, around, list, scope, plan, action.pos),
        ActionNode::Declare(list) => emit_declared(code, around, list),
        ActionNode::Do(node) => emit_option(code, around, node),
        ActionNode::If(c, a) => emit_if(code, around, scope, plan, c, a),
        ActionNode::IfElse(c, a, b) => emit_else(code, around, scope, plan, pos, c, a, b),
        ActionNode::While(c, a) => emit_while(code, around, scope, plan, pos, c, a),
        ActionNode::DoWhile(a, c) => emit_until(code, around, scope, plan, pos, a, c),
        ActionNode::For(rs, u, c, w, a) => {
            emit_for(code, around, scope, plan, pos, rs, u, c, w, a)
        }
        ActionNode::Switch(node, a) => emit_choice(code, around, scope, plan, pos, node, a),
        ActionNode::Case(_, a) | ActionNode::Default(a) | ActionNode::Label(_, a) => {
            emit_stmt(code, around, scope, plan, a)
        }
        ActionNode::Goto(name) => {
            let place = goto_place(*name, scope.labels);
            put(code, pos, Instr::Jump(Label(place)))
        }
        ActionNode::Break => put(code, pos, Instr::Jump(Label(scope.breaks))),
        ActionNode::Continue => put(code, pos, Instr::Jump(Label(scope.continues))),
        ActionNode::Return(kind, node) => emit_return(code, around, pos, *kind, node),
    }
}
