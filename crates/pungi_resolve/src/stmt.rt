//! What statements do (C11 6.8).
ghost use Rattle.std.specs.Prelude.{◌≡◌, ◌+◌, ◌-◌, IfOk, OnOk, map, true, length, drop};
ghost use Rattle.pungi_types.specs.Labels.{stmt_locals, stmts_locals};
ghost use Rattle.pungi_resolved.specs.Actions as actions;
ghost use Rattle.pungi_resolve.specs.Stmts.{action, actions as actions_in, site_after, with_start, start_declared};
ghost use Rattle.pungi_resolve.specs.Stmts.{start_value, option_value};
ghost use Rattle.pungi_resolve.specs.Sound.{is_sound_option};
ghost use Rattle.pungi_resolve.specs.SoundActions.{AreSoundLocals, IsSoundAction, AreSoundActions};
ghost use Rattle.pungi_scope.specs.ScopeEnv.{inner_env};
ghost use Rattle.pungi_tree.specs.Syntax as plain;
ghost use Rattle.pungi_tree.specs.ExprView.{expr_view, optional_view as optional_expr_view};
ghost use Rattle.pungi_tree.specs.StmtView.{decl_view, for_start_view, stmt_view, stmts_of};
ghost use Rattle.pungi_resolved.specs.ValueView.{optional_view};
ghost use Rattle.pungi_resolved.specs.ActionView.{action_view, actions_of, declared_view};
ghost use Rattle.pungi_resolve.specs.Sites.{site_of, after_all};

use crate::decl::resolve_vars;
use crate::values::{case_value, optional_value, return_value, value};
use crate::walk::{Around, Walk};
use pungi_base::{Memory, Name, Pos};
use pungi_resolved::{Action, ActionNode, DeclaredLocal, Value};
use pungi_tree::{Decl, Expr, ForStart, Stmt, StmtNode};
use pungi_types::Lookup;

/// What stands before the body of a `for`.
#[derive(Drop)]
struct Head {
    locals: Vec<DeclaredLocal>,
    first: Option<Box<Value>>,
    test: Option<Box<Value>>,
    step: Option<Box<Value>>,
}

/// The locals and the value with which a `for` begins.
#[derive(Drop)]
struct Start {
    locals: Vec<DeclaredLocal>,
    first: Option<Box<Value>>,
}

/// What begins a `for`.
fn resolve_start<N: Lookup>(
    names: &N,
    around: Around,
    walk: &mut Walk,
    start: &ForStart,
) -> Result<Start, Memory>
    requires locals { AreSoundLocals (start_declared (site_of (N.env names.now) walk.old around.result)
        (for_start_view start.now)) }
    requires first { is_sound_option (start_value (inner_env (N.env names.now) walk.old.locals)
        (for_start_view start.now)) ≡ true }
    ensures locals { IfOk result (λ x. map declared_view x.locals.items
        ≡ start_declared (site_of (N.env names.now) walk.old around.result) (for_start_view start.now)) }
    ensures first { IfOk result (λ x. optional_view x.first
        ≡ start_value (inner_env (N.env names.now) walk.old.locals) (for_start_view start.now)) }
    ensures after { OnOk result (site_of (N.env names.now) walk.new around.result
        ≡ with_start (site_of (N.env names.now) walk.old around.result) (for_start_view start.now)) }
{
    match start {
        ForStart::Decl(d) => {
            let locals = resolve_vars(names, around, walk, &d.type_name, &d.vars)?;
            Ok(Start {
                locals,
                first: None,
            })
        }
        ForStart::Expr(e) => {
            let first = optional_value(names, around, walk, e)?;
            Ok(Start {
                locals: Vec::new(around.alloc),
                first,
            })
        }
    }
}

/// What stands before the body of a `for`.
fn resolve_head<N: Lookup>(
    names: &N,
    around: Around,
    walk: &mut Walk,
    start: &ForStart,
    test: &Option<Expr>,
    step: &Option<Expr>,
) -> Result<Head, Memory>
    requires locals { AreSoundLocals (start_declared (site_of (N.env names.now) walk.old around.result)
        (for_start_view start.now)) }
    requires first { is_sound_option (start_value (inner_env (N.env names.now) walk.old.locals)
        (for_start_view start.now)) ≡ true }
    requires test { is_sound_option (option_value (with_start (site_of (N.env names.now) walk.old around.result)
        (for_start_view start.now)).env (optional_expr_view test.now)) ≡ true }
    requires step { is_sound_option (option_value (with_start (site_of (N.env names.now) walk.old around.result)
        (for_start_view start.now)).env (optional_expr_view step.now)) ≡ true }
    ensures locals { IfOk result (λ x. map declared_view x.locals.items
        ≡ start_declared (site_of (N.env names.now) walk.old around.result) (for_start_view start.now)) }
    ensures first { IfOk result (λ x. optional_view x.first
        ≡ start_value (inner_env (N.env names.now) walk.old.locals) (for_start_view start.now)) }
    ensures test { IfOk result (λ x. optional_view x.test
        ≡ option_value (with_start (site_of (N.env names.now) walk.old around.result) (for_start_view start.now)).env
        (optional_expr_view test.now)) }
    ensures step { IfOk result (λ x. optional_view x.step
        ≡ option_value (with_start (site_of (N.env names.now) walk.old around.result) (for_start_view start.now)).env
        (optional_expr_view step.now)) }
    ensures after { OnOk result (site_of (N.env names.now) walk.new around.result
        ≡ with_start (site_of (N.env names.now) walk.old around.result) (for_start_view start.now)) }
{
    let Start { locals, first } = resolve_start(names, around, walk, start)?;
    let test = optional_value(names, around, walk, test)?;
    let step = optional_value(names, around, walk, step)?;
    Ok(Head {
        locals,
        first,
        test,
        step,
    })
}

/// A declaration.
fn resolve_decl<N: Lookup>(
    names: &N,
    around: Around,
    walk: &mut Walk,
    pos: Pos,
    d: &Decl,
) -> Result<Action, Memory>
    requires { IsSoundAction (action (site_of (N.env names.now) walk.old around.result)
        (plain.declare pos (decl_view d.now))) }
    ensures action { IfOk result (λ x. action_view x ≡ action (site_of (N.env names.now) walk.old around.result)
        (plain.declare pos (decl_view d.now))) }
    ensures after { OnOk result ((site_of (N.env names.now) walk.new around.result)
        ≡ site_after (site_of (N.env names.now) walk.old around.result) (plain.declare pos (decl_view d.now))) }
{
    let locals = resolve_vars(names, around, walk, &d.type_name, &d.vars)?;
    let node = ActionNode::Declare(locals);
    Ok(Action { pos, node })
}

/// An expression statement.
fn resolve_do<N: Lookup>(
    names: &N,
    around: Around,
    walk: &Walk,
    pos: Pos,
    e: &Option<Expr>,
) -> Result<Action, Memory>
    requires { IsSoundAction (action (site_of (N.env names.now) walk.now around.result)
        (plain.do_expr pos (optional_expr_view e.now))) }
    ensures { IfOk result (λ x. action_view x ≡ action (site_of (N.env names.now) walk.now around.result)
        (plain.do_expr pos (optional_expr_view e.now))) }
{
    let found = optional_value(names, around, walk, e)?;
    let node = ActionNode::Do(found);
    Ok(Action { pos, node })
}

/// A `return`.
fn resolve_return<N: Lookup>(
    names: &N,
    around: Around,
    walk: &Walk,
    pos: Pos,
    e: &Option<Expr>,
) -> Result<Action, Memory>
    requires { IsSoundAction (action (site_of (N.env names.now) walk.now around.result)
        (plain.return pos (optional_expr_view e.now))) }
    ensures { IfOk result (λ x. action_view x ≡ action (site_of (N.env names.now) walk.now around.result)
        (plain.return pos (optional_expr_view e.now))) }
{
    let found = return_value(names, around, walk, pos, e)?;
    let node = ActionNode::Return(around.result, found);
    Ok(Action { pos, node })
}

/// What a statement of a block does.
#[cycle(stmt)]
pub(crate) fn resolve_stmt<N: Lookup>(
    names: &N,
    around: Around,
    walk: &mut Walk,
    s: &Stmt,
) -> Result<Action, Memory>
    requires { IsSoundAction (action (site_of (N.env names.now) walk.old around.result) (stmt_view s.now)) }
    ensures action { IfOk result (λ x. action_view x ≡ action (site_of (N.env names.now) walk.old around.result)
        (stmt_view s.now)) }
    ensures after { OnOk result ((site_of (N.env names.now) walk.new around.result)
        ≡ site_after (site_of (N.env names.now) walk.old around.result) (stmt_view s.now)) }
{
    let pos = s.pos;
    match &s.node {
        StmtNode::Block(list, end) => resolve_block(names, around, walk, pos, list, *end),
        StmtNode::Declare(d) => resolve_decl(names, around, walk, pos, d),
        StmtNode::Do(e) => resolve_do(names, around, walk, pos, e),
        StmtNode::If(e, yes, None) => resolve_if(names, around, walk, pos, yes, e),
        StmtNode::If(e, yes, Some(no)) => {
            let test = value(names, around, walk, e)?;
            let yes = resolve_part(names, around, walk, yes)?;
            let no = resolve_part(names, around, walk, no)?;
            let node = ActionNode::IfElse(test, yes, no);
            Ok(Action { pos, node })
        }
        StmtNode::While(e, body) => resolve_while(names, around, walk, pos, body, e),
        StmtNode::DoWhile(body, e) => resolve_do_while(names, around, walk, pos, body, e),
        StmtNode::For(head, body) => resolve_for(
            names,
            around,
            walk,
            pos,
            body,
            &head.start,
            &head.test,
            &head.step,
        ),
        StmtNode::Switch(e, body) => resolve_switch(names, around, walk, pos, body, e),
        StmtNode::Case(e, inner) => resolve_case(names, around, walk, pos, inner, e),
        StmtNode::Default(inner) => resolve_default(names, around, walk, pos, inner),
        StmtNode::Label(name, inner) => resolve_label(names, around, walk, pos, *name, inner),
        StmtNode::Goto(name, _) => Ok(Action {
            pos,
            node: ActionNode::Goto(*name),
        }),
        StmtNode::Break => Ok(Action {
            pos,
            node: ActionNode::Break,
        }),
        StmtNode::Continue => Ok(Action {
            pos,
            node: ActionNode::Continue,
        }),
        StmtNode::Return(e) => resolve_return(names, around, walk, pos, e),
    }
}

#[cycle(stmt)]
fn resolve_if<N: Lookup>(
    names: &N,
    around: Around,
    walk: &mut Walk,
    pos: Pos,
    yes: &Stmt,
    e: &Expr,
) -> Result<Action, Memory>
    requires { IsSoundAction (action (site_of (N.env names.now) walk.old around.result)
        (plain.if_only pos (expr_view e.now) (stmt_view yes.now))) }
    ensures action { IfOk result (λ x. action_view x ≡ action (site_of (N.env names.now) walk.old around.result)
        (plain.if_only pos (expr_view e.now) (stmt_view yes.now))) }
    ensures after { OnOk result ((site_of (N.env names.now) walk.new around.result)
        ≡ site_after (site_of (N.env names.now) walk.old around.result) (plain.if_only pos (expr_view e.now)
        (stmt_view yes.now))) }
{
    let test = value(names, around, walk, e)?;
    let yes = resolve_part(names, around, walk, yes)?;
    let node = ActionNode::If(test, yes);
    Ok(Action { pos, node })
}

#[cycle(stmt)]
fn resolve_while<N: Lookup>(
    names: &N,
    around: Around,
    walk: &mut Walk,
    pos: Pos,
    body: &Stmt,
    e: &Expr,
) -> Result<Action, Memory>
    requires { IsSoundAction (action (site_of (N.env names.now) walk.old around.result)
        (plain.while pos (expr_view e.now) (stmt_view body.now))) }
    ensures action { IfOk result (λ x. action_view x ≡ action (site_of (N.env names.now) walk.old around.result)
        (plain.while pos (expr_view e.now) (stmt_view body.now))) }
    ensures after { OnOk result ((site_of (N.env names.now) walk.new around.result)
        ≡ site_after (site_of (N.env names.now) walk.old around.result) (plain.while pos (expr_view e.now)
        (stmt_view body.now))) }
{
    let test = value(names, around, walk, e)?;
    let body = resolve_part(names, around, walk, body)?;
    let node = ActionNode::While(test, body);
    Ok(Action { pos, node })
}

#[cycle(stmt)]
fn resolve_do_while<N: Lookup>(
    names: &N,
    around: Around,
    walk: &mut Walk,
    pos: Pos,
    body: &Stmt,
    e: &Expr,
) -> Result<Action, Memory>
    requires { IsSoundAction (action (site_of (N.env names.now) walk.old around.result)
        (plain.do_while pos (stmt_view body.now) (expr_view e.now))) }
    ensures action { IfOk result (λ x. action_view x ≡ action (site_of (N.env names.now) walk.old around.result)
        (plain.do_while pos (stmt_view body.now) (expr_view e.now))) }
    ensures after { OnOk result ((site_of (N.env names.now) walk.new around.result)
        ≡ site_after (site_of (N.env names.now) walk.old around.result) (plain.do_while pos (stmt_view body.now)
        (expr_view e.now))) }
{
    let test = value(names, around, walk, e)?;
    let body = resolve_part(names, around, walk, body)?;
    let node = ActionNode::DoWhile(body, test);
    Ok(Action { pos, node })
}

#[cycle(stmt)]
fn resolve_for<N: Lookup>(
    names: &N,
    around: Around,
    walk: &mut Walk,
    pos: Pos,
    body: &Stmt,
    start: &ForStart,
    test: &Option<Expr>,
    step: &Option<Expr>,
) -> Result<Action, Memory>
    requires { IsSoundAction (action (site_of (N.env names.now) walk.old around.result)
        (plain.for pos (for_start_view start.now) (optional_expr_view test.now) (optional_expr_view step.now)
        (stmt_view body.now))) }
    ensures action { IfOk result (λ x. action_view x ≡ action (site_of (N.env names.now) walk.old around.result)
        (plain.for pos (for_start_view start.now) (optional_expr_view test.now) (optional_expr_view step.now)
        (stmt_view body.now))) }
    ensures after { OnOk result ((site_of (N.env names.now) walk.new around.result)
        ≡ site_after (site_of (N.env names.now) walk.old around.result) (plain.for pos (for_start_view start.now)
        (optional_expr_view test.now) (optional_expr_view step.now) (stmt_view body.now))) }
{
    let kept = walk.locals.len();
    let head = resolve_head(names, around, walk, start, test, step)?;
    let body = resolve_part(names, around, walk, body)?;
    walk.leave(kept);
    let Head {
        locals,
        first,
        test,
        step,
    } = head;
    let node = ActionNode::For(locals, first, test, step, body);
    Ok(Action { pos, node })
}

#[cycle(stmt)]
fn resolve_switch<N: Lookup>(
    names: &N,
    around: Around,
    walk: &mut Walk,
    pos: Pos,
    body: &Stmt,
    e: &Expr,
) -> Result<Action, Memory>
    requires { IsSoundAction (action (site_of (N.env names.now) walk.old around.result)
        (plain.switch pos (expr_view e.now) (stmt_view body.now))) }
    ensures action { IfOk result (λ x. action_view x ≡ action (site_of (N.env names.now) walk.old around.result)
        (plain.switch pos (expr_view e.now) (stmt_view body.now))) }
    ensures after { OnOk result ((site_of (N.env names.now) walk.new around.result)
        ≡ site_after (site_of (N.env names.now) walk.old around.result) (plain.switch pos (expr_view e.now)
        (stmt_view body.now))) }
{
    let test = value(names, around, walk, e)?;
    let body = resolve_part(names, around, walk, body)?;
    let node = ActionNode::Switch(test, body);
    Ok(Action { pos, node })
}

#[cycle(stmt)]
fn resolve_case<N: Lookup>(
    names: &N,
    around: Around,
    walk: &mut Walk,
    pos: Pos,
    inner: &Stmt,
    e: &Expr,
) -> Result<Action, Memory>
    requires { IsSoundAction (action (site_of (N.env names.now) walk.old around.result)
        (plain.case pos (expr_view e.now) (stmt_view inner.now))) }
    ensures action { IfOk result (λ x. action_view x ≡ action (site_of (N.env names.now) walk.old around.result)
        (plain.case pos (expr_view e.now) (stmt_view inner.now))) }
    ensures after { OnOk result ((site_of (N.env names.now) walk.new around.result)
        ≡ site_after (site_of (N.env names.now) walk.old around.result) (plain.case pos (expr_view e.now)
        (stmt_view inner.now))) }
{
    let number = case_value(e);
    let inner = resolve_part(names, around, walk, inner)?;
    let node = ActionNode::Case(number, inner);
    Ok(Action { pos, node })
}

#[cycle(stmt)]
fn resolve_default<N: Lookup>(
    names: &N,
    around: Around,
    walk: &mut Walk,
    pos: Pos,
    inner: &Stmt,
) -> Result<Action, Memory>
    requires { IsSoundAction (action (site_of (N.env names.now) walk.old around.result)
        (plain.default pos (stmt_view inner.now))) }
    ensures action { IfOk result (λ x. action_view x ≡ action (site_of (N.env names.now) walk.old around.result)
        (plain.default pos (stmt_view inner.now))) }
    ensures after { OnOk result ((site_of (N.env names.now) walk.new around.result)
        ≡ site_after (site_of (N.env names.now) walk.old around.result) (plain.default pos (stmt_view inner.now))) }
{
    let inner = resolve_part(names, around, walk, inner)?;
    let node = ActionNode::Default(inner);
    Ok(Action { pos, node })
}

#[cycle(stmt)]
fn resolve_label<N: Lookup>(
    names: &N,
    around: Around,
    walk: &mut Walk,
    pos: Pos,
    name: Name,
    inner: &Stmt,
) -> Result<Action, Memory>
    requires { IsSoundAction (action (site_of (N.env names.now) walk.old around.result)
        (plain.label pos name (stmt_view inner.now))) }
    ensures action { IfOk result (λ x. action_view x ≡ action (site_of (N.env names.now) walk.old around.result)
        (plain.label pos name (stmt_view inner.now))) }
    ensures after { OnOk result ((site_of (N.env names.now) walk.new around.result)
        ≡ site_after (site_of (N.env names.now) walk.old around.result) (plain.label pos name (stmt_view inner.now))) }
{
    let inner = resolve_part(names, around, walk, inner)?;
    let node = ActionNode::Label(name, inner);
    Ok(Action { pos, node })
}

/// What a statement that is part of another does. What it declares is in force in it alone.
#[cycle(stmt)]
fn resolve_part<N: Lookup>(
    names: &N,
    around: Around,
    walk: &mut Walk,
    s: &Stmt,
) -> Result<Box<Action>, Memory>
    requires { IsSoundAction (action (site_of (N.env names.now) walk.old around.result) (stmt_view s.now)) }
    ensures action { IfOk result (λ x. action_view x.value
        ≡ action (site_of (N.env names.now) walk.old around.result) (stmt_view s.now)) }
    ensures walk { OnOk result (walk.new ≡ record walk.old { next = walk.old.next + stmt_locals (stmt_view s.now) }) }
{
    let kept = walk.locals.len();
    let part = resolve_stmt(names, around, walk, s)?;
    walk.leave(kept);
    Ok(Box::new(around.alloc, part)?)
}

/// What a block does.
#[cycle(stmt)]
fn resolve_block<N: Lookup>(
    names: &N,
    around: Around,
    walk: &mut Walk,
    pos: Pos,
    list: &Vec<Stmt>,
    end: Pos,
) -> Result<Action, Memory>
    requires { AreSoundActions (actions_in (site_of (N.env names.now) walk.old around.result)
        (stmts_of (map stmt_view list.now.items))) }
    ensures action { IfOk result (λ x. action_view x ≡ actions.block pos (actions_in
        (site_of (N.env names.now) walk.old around.result) (stmts_of (map stmt_view list.now.items))) end) }
    ensures walk { OnOk result (walk.new ≡ record walk.old {
      next = walk.old.next
          + stmts_locals (stmts_of (map stmt_view list.now.items));
    }) }
{
    let kept = walk.locals.len();
    let found = resolve_list(names, around, walk, list)?;
    walk.leave(kept);
    let node = ActionNode::Block(found, end);
    Ok(Action { pos, node })
}

/// What statements of a block do, one after another.
#[cycle(stmt)]
fn resolve_list<N: Lookup>(
    names: &N,
    around: Around,
    walk: &mut Walk,
    list: &Vec<Stmt>,
) -> Result<Vec<Action>, Memory>
    requires { AreSoundActions (actions_in (site_of (N.env names.now) walk.old around.result)
        (stmts_of (map stmt_view list.now.items))) }
    ensures actions { IfOk result (λ x. actions_of (map action_view x.items)
        ≡ actions_in (site_of (N.env names.now) walk.old around.result) (stmts_of (map stmt_view list.now.items))) }
    ensures after { OnOk result (site_of (N.env names.now) walk.new around.result
        ≡ after_all (site_of (N.env names.now) walk.old around.result) (stmts_of (map stmt_view list.now.items))) }
{
    let mut found = Vec::new(around.alloc);
    for s in list {
        let one = resolve_stmt(names, around, walk, s)?;
        found.push(one)?;
    }
    Ok(found)
}
