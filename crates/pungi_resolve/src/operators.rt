//! What operators do with their operands, conversions written out (C11 6.5).
ghost use Rattle.std.specs.Prelude.{◌≡◌, IfOk, if◌then◌else◌, true, false};
ghost use Rattle.pungi_types.specs.Operators.{is_int};
ghost use Rattle.pungi_types.specs.declared.kind.ValueKind.TheVariants as kinds;
ghost use Rattle.pungi_types.specs.Exprs.{step_kind, binary_kind, assign_kind, cond_kind, cast_kind, unary_kind};
ghost use Rattle.pungi_types.specs.declared.operator.Prefix.TheVariants as prefixes;
ghost use Rattle.pungi_resolved.specs.Values as plain;
ghost use Rattle.pungi_resolve.specs.Exprs.{or_int, binary_value, assign_value, cast_value};
ghost use Rattle.pungi_resolved.specs.ValueView.{boxed_view, place_view};

use crate::convert::{convert, convert_some};
use crate::typed::{Typed, TypedPlace};
use pungi_base::{Kind, Memory, Pos, Punct};
use pungi_resolved::ValueNode;
use pungi_types::operator::{
    assign_kind, binary_kind, cast_kind, cond_kind, is_arithmetic, is_arithmetic_assign,
    is_equality, is_int, is_integer, is_order, is_same_kind, is_void, step_kind, unary_kind, wider,
};
use pungi_types::{Prefix, ValueKind};
use std::alloc::Global;

type Known = Option<ValueKind>;

fn or_int(kind: Known) -> ValueKind
    ensures { result ≡ or_int kind }
{
    match kind {
        None => ValueKind::Int,
        Some(kind) => kind,
    }
}

/// A parenthesis.
pub(crate) fn paren(alloc: Global, pos: Pos, a: Typed) -> Result<Typed, Memory>
    ensures value { IfOk result (λ x. boxed_view x.value ≡ plain.inner pos (boxed_view a.value)) }
    ensures kind { IfOk result (λ x. x.kind ≡ a.kind) }
{
    Typed::new(alloc, pos, ValueNode::Inner(a.value), a.kind)
}

/// `++` or `--` of a place, after it where `is_postfix` is true.
pub(crate) fn step(
    alloc: Global,
    pos: Pos,
    is_postfix: bool,
    operator: Kind,
    is_place: bool,
    a: TypedPlace,
) -> Result<Typed, Memory>
    ensures value { IfOk result (λ x. boxed_view x.value
        ≡ plain.stepped pos is_postfix operator (or_int a.kind) (place_view a.place)) }
    ensures kind { IfOk result (λ x. x.kind ≡ step_kind is_place a.kind) }
{
    let node = ValueNode::Stepped(is_postfix, operator, or_int(a.kind), a.place);
    Typed::new(alloc, pos, node, step_kind(is_place, a.kind))
}

/// What a place held, which holds `NULL` from then on.
pub(crate) fn empty(alloc: Global, pos: Pos, a: TypedPlace) -> Result<Typed, Memory>
    ensures value { IfOk result (λ x. boxed_view x.value ≡ plain.emptied pos (or_int a.kind) (place_view a.place)) }
    ensures kind { IfOk result (λ x. x.kind ≡ a.kind) }
{
    let node = ValueNode::Emptied(or_int(a.kind), a.place);
    Typed::new(alloc, pos, node, a.kind)
}

fn sign_kind(kind: Known) -> ValueKind
    ensures { result ≡ (if is_int kind then kinds.Int else kinds.Long) }
{
    if is_int(kind) {
        ValueKind::Int
    } else {
        ValueKind::Long
    }
}

/// `+` or `-` of an operand.
pub(crate) fn sign(alloc: Global, pos: Pos, operator: Kind, a: Typed) -> Result<Typed, Memory>
    ensures value { IfOk result (λ x. boxed_view x.value
        ≡ plain.signed pos operator (if is_int a.kind then kinds.Int else kinds.Long) (boxed_view a.value)) }
    ensures kind { IfOk result (λ x. x.kind ≡ unary_kind prefixes.Sign false false a.kind) }
{
    let kind = unary_kind(Prefix::Sign, false, false, a.kind);
    let node = ValueNode::Signed(operator, sign_kind(a.kind), a.value);
    Typed::new(alloc, pos, node, kind)
}

/// `!` of an operand.
pub(crate) fn negation(alloc: Global, pos: Pos, a: Typed) -> Result<Typed, Memory>
    ensures value { IfOk result (λ x. boxed_view x.value ≡ plain.negated pos (boxed_view a.value)) }
    ensures kind { IfOk result (λ x. x.kind ≡ unary_kind prefixes.Negation false false a.kind) }
{
    let kind = unary_kind(Prefix::Negation, false, false, a.kind);
    Typed::new(alloc, pos, ValueNode::Negated(a.value), kind)
}

/// Two operands with a binary operator between.
pub(crate) fn binary(
    alloc: Global,
    pos: Pos,
    operator: Punct,
    a: Typed,
    b: Typed,
) -> Result<Typed, Memory>
    ensures value { IfOk result (λ x. boxed_view x.value
        ≡ binary_value pos operator (binary_kind operator a.kind b.kind) (boxed_view a.value) (boxed_view b.value)) }
    ensures kind { IfOk result (λ x. x.kind ≡ binary_kind operator a.kind b.kind) }
{
    let kind = binary_kind(operator, a.kind, b.kind);
    if is_arithmetic(operator) {
        let node = ValueNode::Computed(operator, or_int(kind), a.value, b.value);
        Typed::new(alloc, pos, node, kind)
    } else if is_order(operator) || is_equality(operator) {
        Typed::new(
            alloc,
            pos,
            ValueNode::Compared(operator, a.value, b.value),
            kind,
        )
    } else {
        Typed::new(
            alloc,
            pos,
            ValueNode::Joined(operator, a.value, b.value),
            kind,
        )
    }
}

/// An assignment to a place.
pub(crate) fn assign(
    alloc: Global,
    pos: Pos,
    operator: Punct,
    is_place: bool,
    a: TypedPlace,
    b: Typed,
) -> Result<Typed, Memory>
    ensures value { IfOk result (λ x. boxed_view x.value
        ≡ assign_value pos operator a.kind b.kind (place_view a.place) (boxed_view b.value)) }
    ensures kind { IfOk result (λ x. x.kind ≡ assign_kind operator is_place a.kind b.kind) }
{
    let kind = assign_kind(operator, is_place, a.kind, b.kind);
    let to = or_int(a.kind);
    if is_arithmetic_assign(operator) {
        let arithmetic = wider(a.kind, b.kind);
        let node = ValueNode::Updated(operator, arithmetic, to, a.place, b.value);
        Typed::new(alloc, pos, node, kind)
    } else {
        let value = convert(alloc, pos, a.kind, b.kind, b.value)?;
        Typed::new(alloc, pos, ValueNode::Stored(to, a.place, value), kind)
    }
}

/// `?:`.
pub(crate) fn conditional(
    alloc: Global,
    pos: Pos,
    test: Typed,
    yes: Typed,
    no: Typed,
) -> Result<Typed, Memory>
    ensures value { IfOk result (λ x. boxed_view x.value
        ≡ plain.chosen pos (boxed_view test.value) (boxed_view yes.value) (boxed_view no.value)) }
    ensures kind { IfOk result (λ x. x.kind ≡ cond_kind test.kind yes.kind no.kind) }
{
    let kind = cond_kind(test.kind, yes.kind, no.kind);
    let node = ValueNode::Chosen(test.value, yes.value, no.value);
    Typed::new(alloc, pos, node, kind)
}

/// A cast to a type of this kind.
pub(crate) fn cast(alloc: Global, pos: Pos, to: Known, a: Typed) -> Result<Typed, Memory>
    ensures value { IfOk result (λ x. boxed_view x.value ≡ cast_value pos to a.kind (boxed_view a.value)) }
    ensures kind { IfOk result (λ x. x.kind ≡ cast_kind to a.kind) }
{
    let kind = cast_kind(to, a.kind);
    if is_void(to) {
        Typed::new(alloc, pos, ValueNode::Dropped(a.value), kind)
    } else if is_integer(to) && !is_same_kind(to, a.kind) {
        let value = convert_some(alloc, pos, to, a.value)?;
        Ok(Typed { value, kind })
    } else {
        Typed::new(alloc, pos, ValueNode::Cast(a.value), kind)
    }
}
