//! The words that a function calls.
ghost use Rattle.std.specs.Prelude.{◌≡◌, ◌++◌, OnOk, IfOk, map};
ghost use Rattle.pungi_check.specs.Calls.{called_word, expr_calls, exprs_calls, option_calls, init_calls, vars_calls};
ghost use Rattle.pungi_check.specs.Calls.{start_calls, stmt_calls, stmts_calls, body_calls};
ghost use Rattle.pungi_tree.specs.ExprView.{expr_view, exprs_of, optional_view};
ghost use Rattle.pungi_tree.specs.StmtView.{init_option_view, var_decl_view, for_start_view, stmt_view, stmts_of};

use pungi_base::Memory;
use pungi_tree::{Expr, ExprNode, ForStart, Init, Stmt, StmtNode, VarDecl};
use std::alloc::Global;

/// The word of a function part, where it is one.
fn word(out: &mut Vec<u32>, f: &Expr) -> Result<(), Memory>
    ensures { OnOk result (out.new.items ≡ out.old.items ++ called_word (expr_view f.now)) }
{
    match &f.node {
        ExprNode::Word(name) => Ok(out.push(name.0)?),
        _ => Ok(()),
    }
}

#[cycle(expr_calls)]
fn expr(out: &mut Vec<u32>, e: &Expr) -> Result<(), Memory>
    ensures { OnOk result (out.new.items ≡ out.old.items ++ expr_calls (expr_view e.now)) }
{
    match &e.node {
        ExprNode::Word(_)
        | ExprNode::Int { .. }
        | ExprNode::Float
        | ExprNode::Char(_)
        | ExprNode::Text(_)
        | ExprNode::SizeOfType(_)
        | ExprNode::Null => Ok(()),
        ExprNode::Paren(a)
        | ExprNode::Unary(_, a)
        | ExprNode::Post(_, a)
        | ExprNode::Cast(_, a)
        | ExprNode::New(_, a)
        | ExprNode::Dot(a, _)
        | ExprNode::Arrow(a, _) => expr(out, a),
        ExprNode::Binary(_, a, b)
        | ExprNode::Assign(_, a, b)
        | ExprNode::Comma(a, b)
        | ExprNode::Index(a, b) => {
            expr(out, a)?;
            expr(out, b)
        }
        ExprNode::Cond(c, a, b) => {
            expr(out, c)?;
            expr(out, a)?;
            expr(out, b)
        }
        ExprNode::Call(f, args) => {
            word(out, f)?;
            expr(out, f)?;
            exprs(out, args)
        }
    }
}

#[cycle(expr_calls)]
fn exprs(out: &mut Vec<u32>, list: &Vec<Expr>) -> Result<(), Memory>
    ensures { OnOk result (out.new.items ≡ out.old.items ++ exprs_calls (exprs_of (map expr_view list.now.items))) }
{
    for e in list {
        expr(out, e)?;
    }
    Ok(())
}

fn optional(out: &mut Vec<u32>, e: &Option<Expr>) -> Result<(), Memory>
    ensures { OnOk result (out.new.items ≡ out.old.items ++ option_calls (optional_view e.now)) }
{
    match e {
        None => Ok(()),
        Some(e) => expr(out, e),
    }
}

fn init(out: &mut Vec<u32>, value: &Option<Init>) -> Result<(), Memory>
    ensures { OnOk result (out.new.items ≡ out.old.items ++ init_calls (init_option_view value.now)) }
{
    match value {
        None | Some(Init::Table(_)) => Ok(()),
        Some(Init::Value(e)) => expr(out, e),
    }
}

fn vars(out: &mut Vec<u32>, list: &Vec<VarDecl>) -> Result<(), Memory>
    ensures { OnOk result (out.new.items ≡ out.old.items ++ vars_calls (map var_decl_view list.now.items)) }
{
    for var in list {
        init(out, &var.value)?;
    }
    Ok(())
}

fn start(out: &mut Vec<u32>, s: &ForStart) -> Result<(), Memory>
    ensures { OnOk result (out.new.items ≡ out.old.items ++ start_calls (for_start_view s.now)) }
{
    match s {
        ForStart::Decl(d) => vars(out, &d.vars),
        ForStart::Expr(e) => optional(out, e),
    }
}

fn for_head(
    out: &mut Vec<u32>,
    first: &ForStart,
    test: &Option<Expr>,
    step: &Option<Expr>,
) -> Result<(), Memory>
    ensures { OnOk result (out.new.items ≡ out.old.items ++ (start_calls (for_start_view first.now)
        ++ (option_calls (optional_view test.now) ++ option_calls (optional_view step.now)))) }
{
    start(out, first)?;
    optional(out, test)?;
    optional(out, step)
}

/// Adds the words that a statement calls to a list, at its end.
#[cycle(stmt_calls)]
fn stmt(out: &mut Vec<u32>, s: &Stmt) -> Result<(), Memory>
    ensures { OnOk result (out.new.items ≡ out.old.items ++ stmt_calls (stmt_view s.now)) }
{
    match &s.node {
        StmtNode::Block(list, _) => stmts(out, list),
        StmtNode::Declare(d) => vars(out, &d.vars),
        StmtNode::Do(e) | StmtNode::Return(e) => optional(out, e),
        StmtNode::If(e, yes, None) => {
            expr(out, e)?;
            stmt(out, yes)
        }
        StmtNode::If(e, yes, Some(no)) => {
            expr(out, e)?;
            stmt(out, yes)?;
            stmt(out, no)
        }
        StmtNode::While(e, body) | StmtNode::Switch(e, body) | StmtNode::Case(e, body) => {
            expr(out, e)?;
            stmt(out, body)
        }
        StmtNode::DoWhile(body, e) => {
            stmt(out, body)?;
            expr(out, e)
        }
        StmtNode::For(head, body) => {
            for_head(out, &head.start, &head.test, &head.step)?;
            stmt(out, body)
        }
        StmtNode::Default(body) | StmtNode::Label(_, body) => stmt(out, body),
        StmtNode::Goto(_, _) | StmtNode::Break | StmtNode::Continue => Ok(()),
    }
}

#[cycle(stmt_calls)]
fn stmts(out: &mut Vec<u32>, list: &Vec<Stmt>) -> Result<(), Memory>
    ensures { OnOk result (out.new.items ≡ out.old.items ++ stmts_calls (stmts_of (map stmt_view list.now.items))) }
{
    for s in list {
        stmt(out, s)?;
    }
    Ok(())
}

fn body(out: &mut Vec<u32>, s: &Stmt) -> Result<(), Memory>
    ensures { OnOk result (out.new.items ≡ out.old.items ++ body_calls (stmt_view s.now)) }
{
    match &s.node {
        StmtNode::Block(list, _) => stmts(out, list),
        _ => Ok(()),
    }
}

/// The words that a function with this body calls, once for each call, in text order.
pub(crate) fn called_words(alloc: Global, block: &Stmt) -> Result<Vec<u32>, Memory>
    ensures { IfOk result (λ ws. ws.items ≡ body_calls (stmt_view block.now)) }
{
    let mut words = Vec::new(alloc);
    body(&mut words, block)?;
    Ok(words)
}
