ghost use Rattle.std.specs.Prelude.{◌≡◌, ◌+◌, map};
ghost use Rattle.pungi_tree.specs.ExprDepth.{capped};
ghost use Rattle.pungi_tree.specs.ExprView.{optional_view};
ghost use Rattle.pungi_tree.specs.StmtDepth.{optional_depth, init_depth, var_depth, vars_depth, decl_depth};
ghost use Rattle.pungi_tree.specs.StmtDepth.{start_depth, stmt_depth, stmts_depth};
ghost use Rattle.pungi_tree.specs.StmtView.{init_option_view, var_decl_view, decl_view, for_start_view, stmt_view};
ghost use Rattle.pungi_tree.specs.StmtView.{stmts_of};

use crate::expr_depth::{declr, deeper, expr, spec};
use pungi_tree::{Decl, Expr, ForStart, Init, Stmt, StmtNode, VarDecl};

fn optional(e: &Option<Expr>) -> u32
    ensures { result ≡ capped (optional_depth (optional_view e.now)) }
{
    match e {
        None => 0,
        Some(e) => expr(e),
    }
}

fn init(i: &Option<Init>) -> u32
    ensures { result ≡ capped (init_depth (init_option_view i.now)) }
{
    match i {
        None | Some(Init::Table(_)) => 0,
        Some(Init::Value(e)) => expr(e),
    }
}

fn var(v: &VarDecl) -> u32
    ensures { result ≡ capped (var_depth (var_decl_view v.now)) }
{
    declr(&v.declr).max(init(&v.value))
}

fn vars(list: &Vec<VarDecl>) -> u32
    ensures { result ≡ capped (vars_depth (map var_decl_view list.now.items)) }
{
    let mut deepest = 0;
    for v in list {
        deepest = var(v).max(deepest);
    }
    deepest
}

pub(crate) fn decl(d: &Decl) -> u32
    ensures { result ≡ capped (decl_depth (decl_view d.now)) }
{
    spec(&d.type_name).max(vars(&d.vars))
}

fn start(s: &ForStart) -> u32
    ensures { result ≡ capped (start_depth (for_start_view s.now)) }
{
    match s {
        ForStart::Decl(d) => decl(d),
        ForStart::Expr(e) => optional(e),
    }
}

#[cycle(stmt_depth)]
pub(crate) fn stmt(s: &Stmt) -> u32
    ensures { result ≡ capped (stmt_depth (stmt_view s.now)) }
{
    match &s.node {
        StmtNode::Block(list, _) => deeper(stmts(list)),
        StmtNode::Declare(d) => deeper(decl(d)),
        StmtNode::Do(e) | StmtNode::Return(e) => deeper(optional(e)),
        StmtNode::If(e, yes, None) => deeper(expr(e).max(stmt(yes))),
        StmtNode::If(e, yes, Some(no)) => deeper(expr(e).max(stmt(yes).max(stmt(no)))),
        StmtNode::While(e, body) | StmtNode::Switch(e, body) | StmtNode::Case(e, body) => {
            deeper(expr(e).max(stmt(body)))
        }
        StmtNode::DoWhile(body, e) => deeper(stmt(body).max(expr(e))),
        StmtNode::For(head, body) => {
            let front = start(&head.start).max(optional(&head.test));
            deeper(front.max(optional(&head.step).max(stmt(body))))
        }
        StmtNode::Default(body) | StmtNode::Label(_, body) => deeper(stmt(body)),
        StmtNode::Goto(_, _) | StmtNode::Break | StmtNode::Continue => 1,
    }
}

#[cycle(stmt_depth)]
fn stmts(list: &Vec<Stmt>) -> u32
    ensures { result ≡ capped (stmts_depth (stmts_of (map stmt_view list.now.items))) }
{
    let mut deepest = 0;
    for s in list {
        deepest = stmt(s).max(deepest);
    }
    deepest
}
