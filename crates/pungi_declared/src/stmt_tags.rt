//! Structs and unions with fields in statements.
ghost use Rattle.std.specs.Prelude.{◌≡◌, ◌++◌, OnOk, map};
ghost use Rattle.pungi_declared.specs.DeclaredView.{tag_view};
ghost use Rattle.pungi_tree.specs.ExprView.{optional_view};
ghost use Rattle.pungi_tree.specs.StmtView.{var_decl_view, decl_view, for_start_view, stmt_view, stmts_of};
ghost use Rattle.pungi_types.specs.Tags.{option_tags, vars_tags, decl_tags, start_tags, stmt_tags, stmts_tags};

use crate::Tag;
use crate::expr_tags::{declr, expr, spec};
use pungi_base::Memory;
use pungi_tree::{Decl, Expr, ForStart, Init, Stmt, StmtNode, VarDecl};

fn optional<'u>(out: &mut Vec<Tag<'u>>, e: &'u Option<Expr>) -> Result<(), Memory>
    ensures { OnOk result (map tag_view out.new.items ≡ map tag_view out.old.items
        ++ option_tags (optional_view e.now)) }
{
    match e {
        None => Ok(()),
        Some(e) => expr(out, e),
    }
}

fn vars<'u>(out: &mut Vec<Tag<'u>>, list: &'u Vec<VarDecl>) -> Result<(), Memory>
    ensures { OnOk result (map tag_view out.new.items ≡ map tag_view out.old.items
        ++ vars_tags (map var_decl_view list.now.items)) }
{
    for var in list {
        declr(out, &var.declr)?;
        if let Some(Init::Value(e)) = &var.value {
            expr(out, e)?;
        }
    }
    Ok(())
}

pub(crate) fn decl<'u>(out: &mut Vec<Tag<'u>>, d: &'u Decl) -> Result<(), Memory>
    ensures { OnOk result (map tag_view out.new.items ≡ map tag_view out.old.items ++ decl_tags (decl_view d.now)) }
{
    spec(out, &d.type_name)?;
    vars(out, &d.vars)
}

fn start<'u>(out: &mut Vec<Tag<'u>>, s: &'u ForStart) -> Result<(), Memory>
    ensures { OnOk result (map tag_view out.new.items ≡ map tag_view out.old.items
        ++ start_tags (for_start_view s.now)) }
{
    match s {
        ForStart::Decl(d) => decl(out, d),
        ForStart::Expr(e) => optional(out, e),
    }
}

fn for_head<'u>(
    out: &mut Vec<Tag<'u>>,
    first: &'u ForStart,
    test: &'u Option<Expr>,
    step: &'u Option<Expr>,
) -> Result<(), Memory>
    ensures { OnOk result (map tag_view out.new.items ≡ map tag_view out.old.items
        ++ (start_tags (for_start_view first.now)
        ++ (option_tags (optional_view test.now) ++ option_tags (optional_view step.now)))) }
{
    start(out, first)?;
    optional(out, test)?;
    optional(out, step)
}

#[cycle(stmt_tags)]
pub(crate) fn stmt<'u>(out: &mut Vec<Tag<'u>>, s: &'u Stmt) -> Result<(), Memory>
    ensures { OnOk result (map tag_view out.new.items ≡ map tag_view out.old.items ++ stmt_tags (stmt_view s.now)) }
{
    match &s.node {
        StmtNode::Block(list, _) => stmts(out, list),
        StmtNode::Declare(d) => decl(out, d),
        StmtNode::Do(e) | StmtNode::Return(e) => optional(out, e),
        StmtNode::If(e, yes, None) => {
            expr(out, e)?;
            stmt(out, yes)
        }
        StmtNode::If(e, yes, Some(no)) => {
            expr(out, e)?;
            stmt(out, yes)?;
            stmt(out, no)
        }
        StmtNode::While(e, body) | StmtNode::Switch(e, body) | StmtNode::Case(e, body) => {
            expr(out, e)?;
            stmt(out, body)
        }
        StmtNode::DoWhile(body, e) => {
            stmt(out, body)?;
            expr(out, e)
        }
        StmtNode::For(head, body) => {
            for_head(out, &head.start, &head.test, &head.step)?;
            stmt(out, body)
        }
        StmtNode::Default(body) | StmtNode::Label(_, body) => stmt(out, body),
        StmtNode::Goto(_, _) | StmtNode::Break | StmtNode::Continue => Ok(()),
    }
}

#[cycle(stmt_tags)]
fn stmts<'u>(out: &mut Vec<Tag<'u>>, list: &'u Vec<Stmt>) -> Result<(), Memory>
    ensures { OnOk result (map tag_view out.new.items ≡ map tag_view out.old.items
        ++ stmts_tags (stmts_of (map stmt_view list.now.items))) }
{
    for s in list {
        stmt(out, s)?;
    }
    Ok(())
}
