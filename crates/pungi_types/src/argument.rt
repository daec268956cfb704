//! How an argument is written.
ghost use Rattle.std.specs.Prelude.{◌≡◌};
ghost use Rattle.pungi_types.specs.Calls.{is_place, names_type_object, is_module_address, is_local_address, local_kind};
ghost use Rattle.pungi_types.specs.Calls.{argument_form, passed_address};
ghost use Rattle.pungi_types.specs.WantsView.{wants_view};
ghost use Rattle.pungi_tree.specs.ExprView.{expr_view};

use crate::lookup::Lookup;
use crate::wants::{ArgumentForm, Wants, wants_module, wants_output};
use crate::{Standing, ValueKind};
use pungi_base::{Kind, Punct};
use pungi_tree::{Expr, ExprNode};

/// Whether an expression may be assigned to (C11 6.5.16).
pub fn is_place<N: Lookup>(names: &N, e: &Expr) -> bool
    ensures { result ≡ is_place (N.env names.now) (expr_view e.now) }
{
    match &e.node {
        ExprNode::Word(name) => names.is_slot(*name),
        ExprNode::Arrow(_, _) => true,
        _ => false,
    }
}

/// Whether an expression is the name of a type object.
pub fn names_type_object<N: Lookup>(names: &N, e: &Expr) -> bool
    ensures { result ≡ names_type_object (N.env names.now) (expr_view e.now) }
{
    match &e.node {
        ExprNode::Word(name) => names.is_type_object(*name),
        _ => false,
    }
}

/// Whether an expression is `&` of a module table.
pub fn is_module_address<N: Lookup>(names: &N, e: &Expr) -> bool
    ensures { result ≡ is_module_address (N.env names.now) (expr_view e.now) }
{
    match &e.node {
        ExprNode::Unary(Kind::Punct(Punct::And), a) => match &a.node {
            ExprNode::Word(name) => names.is_module(*name),
            _ => false,
        },
        _ => false,
    }
}

/// Whether an expression is `&` of a local.
pub fn is_local_address<N: Lookup>(names: &N, e: &Expr) -> bool
    ensures { result ≡ is_local_address (N.env names.now) (expr_view e.now) }
{
    match &e.node {
        ExprNode::Unary(Kind::Punct(Punct::And), a) => match &a.node {
            ExprNode::Word(name) => matches!(names.standing(*name), Standing::Local(_)),
            _ => false,
        },
        _ => false,
    }
}

/// The kind of a word after an `&`.
fn local_kind<N: Lookup>(names: &N, e: &Expr) -> Option<ValueKind>
    ensures { result ≡ local_kind (N.env names.now) (expr_view e.now) }
{
    match &e.node {
        ExprNode::Word(name) => names.word_kind(*name),
        _ => None,
    }
}

/// How an argument is written.
pub fn argument_form<N: Lookup>(names: &N, e: &Expr) -> ArgumentForm
    ensures { result ≡ argument_form (N.env names.now) (expr_view e.now) }
{
    match &e.node {
        ExprNode::Null => ArgumentForm::Null,
        ExprNode::Int { value, .. } => ArgumentForm::Constant(*value),
        ExprNode::Word(_) | ExprNode::Arrow(_, _) if is_place(names, e) => ArgumentForm::Place,
        ExprNode::Unary(_, _) if is_module_address(names, e) => ArgumentForm::Module,
        ExprNode::Unary(_, a) if is_local_address(names, e) => {
            ArgumentForm::LocalAddress(local_kind(names, a))
        }
        _ => ArgumentForm::Other,
    }
}

/// Whether an argument is an address that only its call examines: of a module table, or of a local that the call
/// writes.
pub fn passed_address<N: Lookup>(names: &N, wants: Wants<'_>, e: &Expr) -> bool
    ensures { result ≡ passed_address (N.env names.now) (wants_view wants.entry) (expr_view e.now) }
{
    (wants_module(wants) && is_module_address(names, e))
        || (wants_output(wants) && is_local_address(names, e))
}
