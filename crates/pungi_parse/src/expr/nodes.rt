ghost use Rattle.std.specs.Prelude.{◌≡◌, ◌++◌, ◌∷◌, [], IfOk, OnOk};
ghost use Rattle.pungi_tree.specs.ExprView.{expr_view};
ghost use Rattle.pungi_tree.specs.Syntax as plain;

use pungi_base::{Memory, Pos, Punct};
use pungi_tree::{Expr, ExprNode};
use std::alloc::Global;

/// An expression in a box.
pub(crate) fn boxed(alloc: Global, tree: Expr) -> Result<Box<Expr>, Memory>
    ensures { IfOk result (λ x. expr_view x.value ≡ expr_view tree) }
{
    Ok(Box::new(alloc, tree)?)
}

pub(crate) fn binary(
    alloc: Global,
    pos: Pos,
    operator: Punct,
    a: Box<Expr>,
    b: Box<Expr>,
) -> Result<Box<Expr>, Memory>
    ensures { IfOk result (λ x. expr_view x.value ≡ plain.binary pos operator (expr_view a.value) (expr_view b.value)) }
{
    let node = ExprNode::Binary(operator, a, b);
    Ok(Box::new(alloc, Expr { pos, node })?)
}

pub(crate) fn comma(
    alloc: Global,
    pos: Pos,
    a: Box<Expr>,
    b: Box<Expr>,
) -> Result<Box<Expr>, Memory>
    ensures { IfOk result (λ x. expr_view x.value ≡ plain.comma pos (expr_view a.value) (expr_view b.value)) }
{
    let node = ExprNode::Comma(a, b);
    Ok(Box::new(alloc, Expr { pos, node })?)
}

/// One more at the end of a list.
pub(crate) fn push(list: &mut Vec<Expr>, e: Box<Expr>) -> Result<(), Memory>
    ensures { OnOk result (list.new.items ≡ list.old.items ++ e.value ∷ []) }
{
    list.push(Box::into_inner(e))?;
    Ok(())
}
