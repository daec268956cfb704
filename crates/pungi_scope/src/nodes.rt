//! How many nodes a function has.
ghost use Rattle.std.specs.Prelude.{◌≡◌, ◌+◌, map};
ghost use Rattle.pungi_tree.specs.ExprDepth.{capped};
ghost use Rattle.pungi_tree.specs.ExprView.{optional_view};
ghost use Rattle.pungi_tree.specs.StmtView.{init_option_view, var_decl_view, decl_view, for_start_view, stmt_view};
ghost use Rattle.pungi_tree.specs.StmtView.{stmts_of};
ghost use Rattle.pungi_types.specs.Nodes.{option_nodes, init_nodes, vars_nodes, decl_nodes, start_nodes, stmt_nodes};
ghost use Rattle.pungi_types.specs.Nodes.{stmts_nodes, function_nodes};
ghost use Rattle.pungi_types.specs.TypesView.{definition_view};

use crate::expr_nodes::{declr, expr, params, plus, spec};
use pungi_tree::{Decl, Expr, ForStart, FunctionDef, Init, Stmt, StmtNode, VarDecl};

fn optional(e: &Option<Expr>) -> u32
    ensures { result ≡ capped (option_nodes (optional_view e.now)) }
{
    match e {
        None => 0,
        Some(e) => expr(e),
    }
}

fn init(value: &Option<Init>) -> u32
    ensures { result ≡ capped (init_nodes (init_option_view value.now)) }
{
    match value {
        None | Some(Init::Table(_)) => 0,
        Some(Init::Value(e)) => expr(e),
    }
}

fn vars(list: &Vec<VarDecl>) -> u32
    ensures { result ≡ capped (vars_nodes (map var_decl_view list.now.items)) }
{
    let mut nodes = 0;
    for var in list {
        let var = plus(plus(declr(&var.declr), init(&var.value)), 1);
        nodes = plus(nodes, var);
    }
    nodes
}

fn decl(d: &Decl) -> u32
    ensures { result ≡ capped (decl_nodes (decl_view d.now)) }
{
    plus(spec(&d.type_name), vars(&d.vars))
}

fn start(s: &ForStart) -> u32
    ensures { result ≡ capped (start_nodes (for_start_view s.now)) }
{
    match s {
        ForStart::Decl(d) => decl(d),
        ForStart::Expr(e) => optional(e),
    }
}

#[cycle(stmt_nodes)]
fn stmt_size(s: &Stmt) -> u32
    ensures { result ≡ capped (stmt_nodes (stmt_view s.now)) }
{
    match &s.node {
        StmtNode::Block(list, _) => plus(stmts(list), 1),
        StmtNode::Declare(d) => plus(decl(d), 1),
        StmtNode::Do(e) | StmtNode::Return(e) => plus(optional(e), 1),
        StmtNode::If(e, yes, None) => plus(plus(expr(e), stmt_size(yes)), 1),
        StmtNode::If(e, yes, Some(no)) => {
            plus(plus(plus(expr(e), stmt_size(yes)), stmt_size(no)), 1)
        }
        StmtNode::While(e, body) | StmtNode::Switch(e, body) | StmtNode::Case(e, body) => {
            plus(plus(expr(e), stmt_size(body)), 1)
        }
        StmtNode::DoWhile(body, e) => plus(plus(stmt_size(body), expr(e)), 1),
        StmtNode::For(head, body) => {
            let front = plus(
                plus(start(&head.start), optional(&head.test)),
                optional(&head.step),
            );
            plus(plus(front, stmt_size(body)), 1)
        }
        StmtNode::Default(body) | StmtNode::Label(_, body) => plus(stmt_size(body), 1),
        StmtNode::Goto(_, _) | StmtNode::Break | StmtNode::Continue => 1,
    }
}

#[cycle(stmt_nodes)]
fn stmts(list: &Vec<Stmt>) -> u32
    ensures { result ≡ capped (stmts_nodes (stmts_of (map stmt_view list.now.items))) }
{
    let mut nodes = 0;
    for s in list {
        nodes = plus(nodes, stmt_size(s));
    }
    nodes
}

/// The nodes of a function: its statements, its expressions, those inside types too, and the variables that it
/// declares.
pub(crate) fn function_size(f: &FunctionDef) -> u32
    ensures { result ≡ capped (function_nodes (definition_view f.now)) }
{
    plus(plus(spec(&f.result), params(&f.params)), stmt_size(&f.body))
}
