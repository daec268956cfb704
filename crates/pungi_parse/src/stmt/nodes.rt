ghost use Rattle.std.specs.Prelude.{◌≡◌, ◌++◌, ◌∷◌, [], List, Some, IfOk, OnOk, map};
ghost use Rattle.pungi_parse.specs.stmt.Begun.{head_view, finish_at};
ghost use Rattle.pungi_parse.specs.types.TypeReader.{Lower};
ghost use Rattle.pungi_base.specs.declared.names.Name.{Name as TheName};
ghost use Rattle.pungi_tree.specs.Placed.{Placed};
ghost use Rattle.pungi_tree.specs.StmtView.{stmt_view, stmts_of};
ghost use Rattle.pungi_tree.specs.Syntax as plain;

use crate::stmt::begun::StmtHead;
use pungi_base::{Memory, Pos};
use pungi_tree::{Stmt, StmtNode};
use std::alloc::Global;

/// A statement in a box.
pub(crate) fn boxed(alloc: Global, stmt: Stmt) -> Result<Box<Stmt>, Memory>
    ensures { IfOk result (λ x. stmt_view x.value ≡ stmt_view stmt) }
{
    Ok(Box::new(alloc, stmt)?)
}

pub(crate) fn block(
    alloc: Global,
    pos: Pos,
    list: Vec<Stmt>,
    close: Pos,
) -> Result<Box<Stmt>, Memory>
    ensures { IfOk result (λ x. stmt_view x.value ≡ plain.block pos (stmts_of (map stmt_view list.items)) close) }
{
    let node = StmtNode::Block(list, close);
    Ok(Box::new(alloc, Stmt { pos, node })?)
}

/// A statement with one body, by what stands in front of the body.
pub(crate) fn headed(pos: Pos, head: StmtHead, body: Box<Stmt>) -> Stmt
    ensures { (types : List TheName) → (low : Lower) → (ts : List Placed)
        → finish_at types low pos (head_view head) (stmt_view body.value) ts ≡ Some (stmt_view result, ts) }
{
    let node = match head {
        StmtHead::While(test) => StmtNode::While(Box::into_inner(test), body),
        StmtHead::For(head) => StmtNode::For(head, body),
        StmtHead::Switch(value) => StmtNode::Switch(Box::into_inner(value), body),
        StmtHead::Case(value) => StmtNode::Case(Box::into_inner(value), body),
        StmtHead::Default => StmtNode::Default(body),
        StmtHead::Label(name) => StmtNode::Label(name, body),
    };
    Stmt { pos, node }
}

/// One more at the end of a list.
pub(crate) fn push(list: &mut Vec<Stmt>, stmt: Box<Stmt>) -> Result<(), Memory>
    ensures { OnOk result (list.new.items ≡ list.old.items ++ stmt.value ∷ []) }
{
    list.push(Box::into_inner(stmt))?;
    Ok(())
}
