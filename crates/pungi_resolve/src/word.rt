//! What words, constants and addresses are as values.
ghost use Rattle.std.specs.Prelude.{◌≡◌, IfOk, Some, true, is_some};
ghost use Rattle.std.specs.Prelude as ints;
ghost use Rattle.pungi_types.specs.Labels.{byte};
ghost use Rattle.pungi_types.specs.Names.{meaning_of};
ghost use Rattle.pungi_types.specs.Calls.{meaning_kind, names_type_object, is_place as is_place_of};
ghost use Rattle.pungi_types.specs.Exprs.{int_kind, unary_kind, kind_of};
ghost use Rattle.pungi_types.specs.declared.kind.ValueKind.TheVariants as kinds;
ghost use Rattle.pungi_types.specs.declared.operator.Prefix.TheVariants as prefixes;
ghost use Rattle.pungi_resolve.specs.Exprs.{word_value, int_value, static_address, module_address};
ghost use Rattle.pungi_resolved.specs.Values.{constant, null_of, text_of};
ghost use Rattle.pungi_resolve.specs.Sound.{is_sound};
ghost use Rattle.pungi_tree.specs.ExprView.{expr_view};
ghost use Rattle.pungi_resolved.specs.ValueView.{boxed_view};

use crate::place::read_as;
use crate::typed::Typed;
use pungi_base::{Memory, Name, Pos};
use pungi_resolved::{Place, Value, ValueNode};
use pungi_tree::{Expr, ExprNode};
use pungi_types::operator::{byte_value, int_kind, unary_kind};
use pungi_types::{Lookup, Prefix, Standing, ValueKind, names_type_object};
use std::alloc::Global;

/// A word that stands as a value.
pub(crate) fn word<N: Lookup>(
    alloc: Global,
    names: &N,
    pos: Pos,
    name: Name,
) -> Result<Typed, Memory>
    requires { is_sound (word_value pos name (meaning_of (N.env names.now) name.0)
        (meaning_kind (meaning_of (N.env names.now) name.0))) ≡ true }
    ensures value { IfOk result (λ x. boxed_view x.value
        ≡ word_value pos name (meaning_of (N.env names.now) name.0) (meaning_kind
        (meaning_of (N.env names.now) name.0))) }
    ensures kind { IfOk result (λ x. x.kind ≡ meaning_kind (meaning_of (N.env names.now) name.0)) }
{
    let kind = names.word_kind(name);
    match names.standing(name) {
        Standing::Static(number) => Typed::new(alloc, pos, ValueNode::Static(number), kind),
        Standing::Local(number) => read_as(alloc, pos, kind, Place::Local(pos, number)),
        Standing::Global => read_as(alloc, pos, kind, Place::Global(pos, name)),
        Standing::Other => unreachable!(),
    }
}

/// The number of an integer constant.
fn number(value: i128, long: bool, unsigned: bool) -> i64
    requires { is_some (int_kind value long unsigned) ≡ true }
    ensures { result ≡ value }
{
    if value < 0 {
        unreachable!()
    }
    if value > 9223372036854775807 {
        unreachable!()
    }
    value as i64
}

/// An integer constant (C11 6.4.4.1).
pub(crate) fn int(
    alloc: Global,
    pos: Pos,
    value: i128,
    long: bool,
    unsigned: bool,
) -> Result<Typed, Memory>
    requires { is_sound (int_value pos (int_kind value long unsigned) value) ≡ true }
    ensures value { IfOk result (λ x. boxed_view x.value ≡ int_value pos (int_kind value long unsigned) value) }
    ensures kind { IfOk result (λ x. x.kind ≡ int_kind value long unsigned) }
{
    let node = ValueNode::Constant(number(value, long, unsigned));
    Typed::new(alloc, pos, node, int_kind(value, long, unsigned))
}

/// A character constant (C11 6.4.4.4).
pub(crate) fn character(alloc: Global, pos: Pos, code: u8) -> Result<Typed, Memory>
    ensures value { IfOk result (λ x. boxed_view x.value ≡ constant pos (ints.pos (byte code))) }
    ensures kind { IfOk result (λ x. x.kind ≡ Some kinds.Int) }
{
    let node = ValueNode::Constant(byte_value(code));
    Typed::new(alloc, pos, node, Some(ValueKind::Int))
}

/// `NULL`.
pub(crate) fn null(alloc: Global, pos: Pos) -> Result<Typed, Memory>
    ensures value { IfOk result (λ x. boxed_view x.value ≡ null_of pos) }
    ensures kind { IfOk result (λ x. x.kind ≡ Some kinds.Null) }
{
    Typed::new(alloc, pos, ValueNode::Null, Some(ValueKind::Null))
}

/// A string literal.
pub(crate) fn text(alloc: Global, pos: Pos, parts: &Vec<Name>) -> Result<Typed, Memory>
    ensures value { IfOk result (λ x. boxed_view x.value ≡ text_of pos parts.now.items) }
    ensures kind { IfOk result (λ x. x.kind ≡ Some kinds.Text) }
{
    let parts = Vec::from_slice(alloc, parts.as_slice())?;
    Typed::new(alloc, pos, ValueNode::Text(parts), Some(ValueKind::Text))
}

/// `&` of a type object.
pub(crate) fn address<N: Lookup>(
    alloc: Global,
    names: &N,
    pos: Pos,
    a: &Expr,
) -> Result<Typed, Memory>
    requires { is_sound (static_address (N.env names.now) pos (expr_view a.now)) ≡ true }
    ensures value { IfOk result (λ x. boxed_view x.value ≡ static_address (N.env names.now) pos (expr_view a.now)) }
    ensures kind { IfOk result (λ x. x.kind ≡ unary_kind prefixes.Address (names_type_object (N.env names.now)
        (expr_view a.now)) (is_place_of (N.env names.now) (expr_view a.now)) (kind_of (N.env names.now)
        (expr_view a.now))) }
{
    let kind = unary_kind(Prefix::Address, names_type_object(names, a), false, None);
    match &a.node {
        ExprNode::Word(name) => {
            let number = names.static_number(*name);
            Typed::new(alloc, pos, ValueNode::Static(number), kind)
        }
        _ => unreachable!(),
    }
}

/// The module table after an `&`.
pub(crate) fn module_behind(alloc: Global, e: &Expr) -> Result<Box<Value>, Memory>
    requires { is_sound (module_address (expr_view e.now)) ≡ true }
    ensures { IfOk result (λ x. boxed_view x ≡ module_address (expr_view e.now)) }
{
    match &e.node {
        ExprNode::Unary(_, a) => match &a.node {
            ExprNode::Word(name) => {
                let node = ValueNode::Module(*name);
                Ok(Box::new(alloc, Value { pos: e.pos, node })?)
            }
            _ => unreachable!(),
        },
        _ => unreachable!(),
    }
}
