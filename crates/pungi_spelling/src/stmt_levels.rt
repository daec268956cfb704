ghost use Rattle.std.specs.Prelude.{◌≡◌, map};
ghost use Rattle.pungi_tree.specs.ExprView.{optional_view};
ghost use Rattle.pungi_tree.specs.StmtLevels.{open_if, is_statement, optional_ok, init_ok, var_ok, some_vars_ok};
ghost use Rattle.pungi_tree.specs.StmtLevels.{decl_ok, start_ok, stmt_ok, stmts_ok};
ghost use Rattle.pungi_tree.specs.StmtView.{init_option_view, var_decl_view, decl_view, for_start_view, stmt_view};
ghost use Rattle.pungi_tree.specs.StmtView.{stmts_of};
ghost use Rattle.pungi_tree.specs.UnitLevels.{typedef_names};
ghost use Rattle.pungi_tree.specs.UnitView.{item_view};

use crate::balanced::is_balanced;
use crate::expr_levels::{declr, expr_at, spec};
use crate::operators::qualifiers;
use crate::type_words::is_type;
use pungi_tree::{Decl, Expr, ForStart, Init, Item, Stmt, StmtNode, VarDecl};

/// Whether an `else` after a statement would belong to an `if` in it.
fn open_if(s: &Stmt) -> bool
    ensures { result ≡ open_if (stmt_view s.now) }
{
    match &s.node {
        StmtNode::If(_, _, None) => true,
        StmtNode::If(_, _, Some(body))
        | StmtNode::While(_, body)
        | StmtNode::For(_, body)
        | StmtNode::Switch(_, body)
        | StmtNode::Case(_, body)
        | StmtNode::Default(body)
        | StmtNode::Label(_, body) => open_if(body),
        _ => false,
    }
}

fn is_statement(s: &Stmt) -> bool
    ensures { result ≡ is_statement (stmt_view s.now) }
{
    !matches!(&s.node, StmtNode::Declare(_))
}

fn optional(file: &[Item], e: &Option<Expr>) -> bool
    ensures { result ≡ optional_ok (typedef_names (map item_view file.now)) (optional_view e.now) }
{
    match e {
        None => true,
        Some(e) => expr_at(file, 0, e),
    }
}

fn init(file: &[Item], i: &Option<Init>) -> bool
    ensures { result ≡ init_ok (typedef_names (map item_view file.now)) (init_option_view i.now) }
{
    match i {
        None => true,
        Some(Init::Value(e)) => expr_at(file, 1, e),
        Some(Init::Table(tokens)) => is_balanced(tokens),
    }
}

fn var(file: &[Item], v: &VarDecl) -> bool
    ensures { result ≡ var_ok (typedef_names (map item_view file.now)) (var_decl_view v.now) }
{
    declr(file, &v.declr) && init(file, &v.value)
}

fn some_vars(file: &[Item], list: &Vec<VarDecl>) -> bool
    ensures { result ≡ some_vars_ok (typedef_names (map item_view file.now)) (map var_decl_view list.now.items) }
{
    let Some((first, others)) = list.split_first() else {
        return false;
    };
    if !var(file, first) {
        return false;
    }
    for v in others {
        if !var(file, v) {
            return false;
        }
    }
    true
}

pub(crate) fn decl(file: &[Item], d: &Decl) -> bool
    ensures { result ≡ decl_ok (typedef_names (map item_view file.now)) (decl_view d.now) }
{
    qualifiers(&d.quals) && spec(file, &d.type_name) && some_vars(file, &d.vars)
}

fn start(file: &[Item], s: &ForStart) -> bool
    ensures { result ≡ start_ok (typedef_names (map item_view file.now)) (for_start_view s.now) }
{
    match s {
        ForStart::Decl(d) => decl(file, d),
        ForStart::Expr(e) => optional(file, e),
    }
}

#[cycle(stmt_levels)]
pub(crate) fn stmt(file: &[Item], s: &Stmt) -> bool
    ensures { result ≡ stmt_ok (typedef_names (map item_view file.now)) (stmt_view s.now) }
{
    match &s.node {
        StmtNode::Block(list, _) => stmts(file, list),
        StmtNode::Declare(d) => decl(file, d),
        StmtNode::Do(e) | StmtNode::Return(e) => optional(file, e),
        StmtNode::If(e, yes, None) => expr_at(file, 0, e) && is_statement(yes) && stmt(file, yes),
        StmtNode::If(e, yes, Some(no)) => {
            expr_at(file, 0, e)
                && is_statement(yes)
                && stmt(file, yes)
                && !open_if(yes)
                && is_statement(no)
                && stmt(file, no)
        }
        StmtNode::While(e, body) | StmtNode::Switch(e, body) => {
            expr_at(file, 0, e) && is_statement(body) && stmt(file, body)
        }
        StmtNode::DoWhile(body, e) => {
            is_statement(body) && stmt(file, body) && expr_at(file, 0, e)
        }
        StmtNode::For(head, body) => {
            start(file, &head.start)
                && optional(file, &head.test)
                && optional(file, &head.step)
                && is_statement(body)
                && stmt(file, body)
        }
        StmtNode::Case(e, body) => { expr_at(file, 2, e) && is_statement(body) && stmt(file, body) }
        StmtNode::Default(body) => is_statement(body) && stmt(file, body),
        StmtNode::Label(name, body) => {
            !is_type(file, *name) && is_statement(body) && stmt(file, body)
        }
        StmtNode::Goto(name, _) => !is_type(file, *name),
        StmtNode::Break | StmtNode::Continue => true,
    }
}

#[cycle(stmt_levels)]
fn stmts(file: &[Item], list: &Vec<Stmt>) -> bool
    ensures { result ≡ stmts_ok (typedef_names (map item_view file.now)) (stmts_of (map stmt_view list.now.items)) }
{
    for s in list {
        if !stmt(file, s) {
            return false;
        }
    }
    true
}
