//! What expressions do (C11 6.5).
ghost use Rattle.std.specs.Prelude.{◌≡◌, ◌++◌, ◌∷◌, [], ◌&&◌, IfOk, OnOk, map, true, false};
ghost use Rattle.pungi_types.specs.Operators.{struct_part};
ghost use Rattle.pungi_types.specs.Kinds.{field_kind};
ghost use Rattle.pungi_types.specs.Calls.{is_place as is_place_of, first_met, argument_form, wants_output};
ghost use Rattle.pungi_types.specs.Exprs.{kind_of, step_kind, operand, are_met};
ghost use Rattle.pungi_types.specs.WantsView.{wants_view};
ghost use Rattle.pungi_resolve.specs.Exprs.{resolve, or_int, want_kind, given_param, given_params, place_of};
ghost use Rattle.pungi_resolve.specs.Exprs.{resolve_all, field_of};
ghost use Rattle.pungi_resolved.specs.Values as values;
ghost use Rattle.pungi_resolve.specs.Sound.{is_sound, are_sound, is_sound_place};
ghost use Rattle.pungi_tree.specs.Syntax as plain;
ghost use Rattle.pungi_tree.specs.ExprView.{expr_view, exprs_of, type_name_view};
ghost use Rattle.pungi_resolved.specs.ValueView.{boxed_view, value_view, values_of, place_view};
ghost use Rattle.pungi_resolve.specs.Arguments.{argument_in, argument_values};
ghost use Rattle.pungi_resolve.specs.Outputs.{output_of, outputs_of};

use crate::call::call;
use crate::convert::convert;
use crate::made::made;
use crate::operators::{assign, binary, cast, conditional, empty, negation, paren, sign, step};
use crate::outputs::output_of;
use crate::place::{field_of, read_as, word_place};
use crate::typed::{Argument, Arguments, Typed, TypedPlace};
use crate::word::{address, character, int, module_behind, null, text, word};
use pungi_api::Param;
use pungi_base::{Kind, Memory, Name, Pos, Seq};
use pungi_tree::{Expr, ExprNode, TypeName};
use pungi_types::operator::prefix_of;
use pungi_types::wants::{
    first_met, first_want, is_done, other_wants, wants_module, wants_output, wants_place,
};
use pungi_types::{
    Lookup, Prefix, ValueKind, Want, Wants, argument_form, call_kind, callee_wants, check_expr,
    expr_pos, is_module_address, is_place, made_kind, operand, struct_only,
};
use std::alloc::Global;

/// The kind to which a wanted argument is converted, if any.
fn want_kind(wants: Wants<'_>) -> Option<ValueKind>
    ensures { result ≡ want_kind (wants_view wants.entry) }
{
    match first_want(wants) {
        Some(Want::OfKind(kind)) => Some(kind),
        Some(Want::Count(_) | Want::AtMost(_)) => Some(ValueKind::Size),
        _ => None,
    }
}

/// What an argument of this kind is where any is taken.
fn given_param(kind: Option<ValueKind>) -> Param
    ensures { result ≡ given_param kind }
{
    match kind {
        Some(ValueKind::Int) => Param::Int,
        Some(ValueKind::Long) => Param::Long,
        Some(ValueKind::Size) => Param::Size,
        Some(ValueKind::Text) => Param::TextOrNull,
        _ => Param::ObjectOrNull,
    }
}

/// What an expression does.
#[cycle(expr)]
pub(crate) fn resolve_expr<N: Lookup>(alloc: Global, names: &N, e: &Expr) -> Result<Typed, Memory>
    requires { is_sound (resolve (N.env names.now) (expr_view e.now)) ≡ true }
    ensures value { IfOk result (λ x. boxed_view x.value ≡ resolve (N.env names.now) (expr_view e.now)) }
    ensures kind { IfOk result (λ x. x.kind ≡ kind_of (N.env names.now) (expr_view e.now)) }
{
    match &e.node {
        ExprNode::Word(name) => word(alloc, names, e.pos, *name),
        ExprNode::Int {
            value,
            long,
            unsigned,
        } => int(alloc, e.pos, *value, *long, *unsigned),
        ExprNode::Char(code) => character(alloc, e.pos, *code),
        ExprNode::Text(parts) => text(alloc, e.pos, parts),
        ExprNode::Null => null(alloc, e.pos),
        ExprNode::Paren(a) => resolve_paren(alloc, names, e.pos, a),
        ExprNode::Unary(operator, a) => resolve_unary(alloc, names, e.pos, *operator, a),
        ExprNode::Post(operator, a) => {
            resolve_step(alloc, names, e.pos, true, Kind::Punct(*operator), a)
        }
        ExprNode::Binary(operator, a, b) => {
            let a = resolve_expr(alloc, names, a)?;
            let b = resolve_expr(alloc, names, b)?;
            Ok(binary(alloc, e.pos, *operator, a, b)?)
        }
        ExprNode::Assign(operator, a, b) => {
            let is_place = is_place(names, a);
            let a = resolve_place(alloc, names, a)?;
            let b = resolve_expr(alloc, names, b)?;
            Ok(assign(alloc, e.pos, *operator, is_place, a, b)?)
        }
        ExprNode::Cond(test, yes, no) => {
            let test = resolve_expr(alloc, names, test)?;
            let yes = resolve_expr(alloc, names, yes)?;
            let no = resolve_expr(alloc, names, no)?;
            Ok(conditional(alloc, e.pos, test, yes, no)?)
        }
        ExprNode::Cast(name, a) => resolve_cast(alloc, names, e.pos, a, name),
        ExprNode::New(name, a) => resolve_new(alloc, names, e.pos, a, name),
        ExprNode::Call(f, list) => resolve_call(alloc, names, e.pos, list, f),
        ExprNode::Arrow(a, name) => resolve_arrow(alloc, names, e.pos, a, *name),
        ExprNode::Float
        | ExprNode::Comma(_, _)
        | ExprNode::SizeOfType(_)
        | ExprNode::Index(_, _)
        | ExprNode::Dot(_, _) => unreachable!(),
    }
}

#[cycle(expr)]
fn resolve_paren<N: Lookup>(alloc: Global, names: &N, pos: Pos, a: &Expr) -> Result<Typed, Memory>
    requires { is_sound (resolve (N.env names.now) (expr_view a.now)) ≡ true }
    ensures value { IfOk result (λ x. boxed_view x.value
        ≡ values.inner pos (resolve (N.env names.now) (expr_view a.now))) }
    ensures kind { IfOk result (λ x. x.kind ≡ kind_of (N.env names.now) (expr_view a.now)) }
{
    let a = resolve_expr(alloc, names, a)?;
    paren(alloc, pos, a)
}

#[cycle(expr)]
fn resolve_unary<N: Lookup>(
    alloc: Global,
    names: &N,
    pos: Pos,
    operator: Kind,
    a: &Expr,
) -> Result<Typed, Memory>
    requires { is_sound (resolve (N.env names.now) (plain.unary pos operator (expr_view a.now))) ≡ true }
    ensures value { IfOk result (λ x. boxed_view x.value
        ≡ resolve (N.env names.now) (plain.unary pos operator (expr_view a.now))) }
    ensures kind { IfOk result (λ x. x.kind ≡ kind_of (N.env names.now) (plain.unary pos operator (expr_view a.now))) }
{
    match prefix_of(operator) {
        Prefix::Address => address(alloc, names, pos, a),
        Prefix::Step => resolve_step(alloc, names, pos, false, operator, a),
        Prefix::Sign => {
            let a = resolve_expr(alloc, names, a)?;
            sign(alloc, pos, operator, a)
        }
        Prefix::Negation => {
            let a = resolve_expr(alloc, names, a)?;
            negation(alloc, pos, a)
        }
        Prefix::LeftOut => unreachable!(),
    }
}

/// `++` or `--`, after the place where `is_postfix` is true.
#[cycle(expr)]
fn resolve_step<N: Lookup>(
    alloc: Global,
    names: &N,
    pos: Pos,
    is_postfix: bool,
    operator: Kind,
    a: &Expr,
) -> Result<Typed, Memory>
    requires { is_sound_place (place_of (N.env names.now) (expr_view a.now)) ≡ true }
    ensures value { IfOk result (λ x. boxed_view x.value
        ≡ values.stepped pos is_postfix operator (or_int (kind_of (N.env names.now) (expr_view a.now)))
        (place_of (N.env names.now) (expr_view a.now))) }
    ensures kind { IfOk result (λ x. x.kind ≡ step_kind (is_place_of (N.env names.now) (expr_view a.now))
        (kind_of (N.env names.now) (expr_view a.now))) }
{
    let is_place = is_place(names, a);
    let a = resolve_place(alloc, names, a)?;
    step(alloc, pos, is_postfix, operator, is_place, a)
}

#[cycle(expr)]
fn resolve_cast<N: Lookup>(
    alloc: Global,
    names: &N,
    pos: Pos,
    a: &Expr,
    name: &TypeName,
) -> Result<Typed, Memory>
    requires { is_sound (resolve (N.env names.now) (plain.cast pos (type_name_view name.now) (expr_view a.now)))
        ≡ true }
    ensures value { IfOk result (λ x. boxed_view x.value
        ≡ resolve (N.env names.now) (plain.cast pos (type_name_view name.now) (expr_view a.now))) }
    ensures kind { IfOk result (λ x. x.kind ≡ kind_of (N.env names.now) (plain.cast pos (type_name_view name.now)
        (expr_view a.now))) }
{
    let to = names.type_kind(&name.spec, name.stars.len());
    let a = resolve_expr(alloc, names, a)?;
    cast(alloc, pos, to, a)
}

#[cycle(expr)]
fn resolve_new<N: Lookup>(
    alloc: Global,
    names: &N,
    pos: Pos,
    a: &Expr,
    name: &TypeName,
) -> Result<Typed, Memory>
    requires { is_sound (resolve (N.env names.now) (plain.new pos (type_name_view name.now) (expr_view a.now)))
        ≡ true }
    ensures value { IfOk result (λ x. boxed_view x.value
        ≡ resolve (N.env names.now) (plain.new pos (type_name_view name.now) (expr_view a.now))) }
    ensures kind { IfOk result (λ x. x.kind ≡ kind_of (N.env names.now) (plain.new pos (type_name_view name.now)
        (expr_view a.now))) }
{
    let to = struct_only(names.type_kind(&name.spec, name.stars.len() + 1));
    let of = resolve_expr(alloc, names, a)?;
    let kind = made_kind(to, operand(of.kind, a));
    made(alloc, pos, of.value, kind)
}

#[cycle(expr)]
fn resolve_call<N: Lookup>(
    alloc: Global,
    names: &N,
    pos: Pos,
    list: &Vec<Expr>,
    f: &Expr,
) -> Result<Typed, Memory>
    requires { is_sound (resolve (N.env names.now) (plain.call pos (expr_view f.now)
        (exprs_of (map expr_view list.now.items)))) ≡ true }
    ensures value { IfOk result (λ x. boxed_view x.value
        ≡ resolve (N.env names.now) (plain.call pos (expr_view f.now) (exprs_of (map expr_view list.now.items)))) }
    ensures kind { IfOk result (λ x. x.kind ≡ kind_of (N.env names.now) (plain.call pos (expr_view f.now)
        (exprs_of (map expr_view list.now.items)))) }
{
    let wants = callee_wants(alloc, names, f, list)?;
    let args = resolve_args(alloc, names, wants.wants(), list)?;
    let kind = call_kind(names, f, args.met);
    call(alloc, names, pos, f, list.as_slice(), args, kind)
}

#[cycle(expr)]
fn resolve_arrow<N: Lookup>(
    alloc: Global,
    names: &N,
    pos: Pos,
    a: &Expr,
    name: Name,
) -> Result<Typed, Memory>
    requires { is_sound (resolve (N.env names.now) (plain.arrow pos (expr_view a.now) name)) ≡ true }
    ensures value { IfOk result (λ x. boxed_view x.value
        ≡ resolve (N.env names.now) (plain.arrow pos (expr_view a.now) name)) }
    ensures kind { IfOk result (λ x. x.kind ≡ kind_of (N.env names.now) (plain.arrow pos (expr_view a.now) name)) }
{
    let field = resolve_field(alloc, names, pos, a, name)?;
    read_as(alloc, pos, field.kind, field.place)
}

/// What an expression is as a place.
#[cycle(expr)]
fn resolve_place<N: Lookup>(alloc: Global, names: &N, e: &Expr) -> Result<TypedPlace, Memory>
    requires { is_sound_place (place_of (N.env names.now) (expr_view e.now)) ≡ true }
    ensures place { IfOk result (λ x. place_view x.place ≡ place_of (N.env names.now) (expr_view e.now)) }
    ensures kind { IfOk result (λ x. x.kind ≡ kind_of (N.env names.now) (expr_view e.now)) }
{
    match &e.node {
        ExprNode::Word(name) => Ok(TypedPlace {
            place: word_place(names, e.pos, *name),
            kind: names.word_kind(*name),
        }),
        ExprNode::Arrow(a, name) => resolve_field(alloc, names, e.pos, a, *name),
        _ => unreachable!(),
    }
}

/// The field of this name, reached through a pointer.
#[cycle(expr)]
fn resolve_field<N: Lookup>(
    alloc: Global,
    names: &N,
    pos: Pos,
    a: &Expr,
    name: Name,
) -> Result<TypedPlace, Memory>
    requires { is_sound_place (field_of pos (resolve (N.env names.now) (expr_view a.now))
        (struct_part (kind_of (N.env names.now) (expr_view a.now))) name) ≡ true }
    ensures place { IfOk result (λ x. place_view x.place
        ≡ field_of pos (resolve (N.env names.now) (expr_view a.now)) (struct_part
        (kind_of (N.env names.now) (expr_view a.now))) name) }
    ensures kind { IfOk result (λ x. x.kind ≡ field_kind (N.env names.now).file.items
        (kind_of (N.env names.now) (expr_view a.now)) name.0) }
{
    let base = resolve_expr(alloc, names, a)?;
    let kind = names.field_kind(base.kind, name);
    let place = field_of(pos, base, name);
    Ok(TypedPlace { place, kind })
}

#[cycle(expr)]
fn resolve_args<N: Lookup>(
    alloc: Global,
    names: &N,
    wants: Wants<'_>,
    list: &Vec<Expr>,
) -> Result<Arguments, Memory>
    requires { are_sound (resolve_all (N.env names.now) (wants_view wants) (exprs_of (map expr_view list.now.items)))
        ≡ true }
    ensures values { IfOk result (λ x. values_of (map value_view x.values.items)
        ≡ resolve_all (N.env names.now) (wants_view wants.entry) (exprs_of (map expr_view list.now.items))) }
    ensures given { IfOk result (λ x. x.given
        ≡ given_params (N.env names.now) (exprs_of (map expr_view list.now.items))) }
    ensures outs { IfOk result (λ x. x.outs
        ≡ outputs_of (N.env names.now) (wants_view wants.entry) (exprs_of (map expr_view list.now.items))) }
    ensures met { IfOk result (λ x. x.met ≡ are_met (N.env names.now) (wants_view wants.entry)
        (exprs_of (map expr_view list.now.items))) }
{
    let mut args = Arguments {
        values: Vec::new(alloc),
        given: Seq::new(Vec::new(alloc)),
        outs: Seq::new(Vec::new(alloc)),
        met: true,
    };
    let mut rest = wants;
    for e in list {
        put_arg(alloc, names, rest, e, &mut args)?;
        rest = other_wants(rest);
    }
    args.met = args.met && is_done(rest);
    Ok(args)
}

/// Adds an argument where these are wanted.
#[cycle(expr)]
fn put_arg<N: Lookup>(
    alloc: Global,
    names: &N,
    wants: Wants<'_>,
    e: &Expr,
    args: &mut Arguments,
) -> Result<(), Memory>
    requires { wants_output (wants_view wants) ≡ false
        → is_sound (argument_in (N.env names.now) (wants_view wants) (expr_view e.now)) ≡ true }
    ensures values { OnOk result (map value_view args.new.values.items ≡ map value_view args.old.values.items
        ++ argument_values (N.env names.now) (wants_view wants.entry) (expr_view e.now)) }
    ensures given { OnOk result (args.new.given ≡ args.old.given
        ++ given_param (kind_of (N.env names.now) (expr_view e.now)) ∷ []) }
    ensures outs { OnOk result (args.new.outs ≡ args.old.outs
        ++ output_of (N.env names.now) (wants_view wants.entry) (expr_view e.now)) }
    ensures met { OnOk result (args.new.met ≡ (args.old.met && first_met (wants_view wants.entry)
        (argument_form (N.env names.now) (expr_view e.now)) (operand (kind_of (N.env names.now) (expr_view e.now))
        (expr_view e.now)))) }
{
    if wants_output(wants) {
        put_output(alloc, names, wants, e, args)
    } else {
        let arg = resolve_arg(alloc, names, wants, e)?;
        put_value(args, arg)
    }
}

/// Adds an argument that the call writes.
fn put_output<N: Lookup>(
    alloc: Global,
    names: &N,
    wants: Wants<'_>,
    e: &Expr,
    args: &mut Arguments,
) -> Result<(), Memory>
    ensures values { OnOk result (args.new.values ≡ args.old.values) }
    ensures given { OnOk result (args.new.given ≡ args.old.given
        ++ given_param (kind_of (N.env names.now) (expr_view e.now)) ∷ []) }
    ensures outs { OnOk result (args.new.outs ≡ args.old.outs
        ++ output_of (N.env names.now) (wants_view wants.entry) (expr_view e.now)) }
    ensures met { OnOk result (args.new.met ≡ (args.old.met && first_met (wants_view wants.entry)
        (argument_form (N.env names.now) (expr_view e.now)) (operand (kind_of (N.env names.now) (expr_view e.now))
        (expr_view e.now)))) }
{
    let kind = check_expr(alloc, names, &mut None, e)?;
    args.given.push(given_param(kind))?;
    args.met = args.met && first_met(wants, argument_form(names, e), operand(kind, e));
    if let Some(step) = output_of(names, wants, e) {
        args.outs.push(step)?;
    }
    Ok(())
}

/// Adds an argument that has a value.
fn put_value(args: &mut Arguments, arg: Argument) -> Result<(), Memory>
    ensures values { OnOk result (map value_view args.new.values.items
        ≡ map value_view args.old.values.items ++ boxed_view arg.value ∷ []) }
    ensures given { OnOk result (args.new.given ≡ args.old.given ++ arg.given ∷ []) }
    ensures outs { OnOk result (args.new.outs ≡ args.old.outs) }
    ensures met { OnOk result (args.new.met ≡ (args.old.met && arg.met)) }
{
    args.given.push(arg.given)?;
    args.met = args.met && arg.met;
    args.values.push(Box::into_inner(arg.value))?;
    Ok(())
}

#[cycle(expr)]
fn resolve_arg<N: Lookup>(
    alloc: Global,
    names: &N,
    wants: Wants<'_>,
    e: &Expr,
) -> Result<Argument, Memory>
    requires { is_sound (argument_in (N.env names.now) (wants_view wants) (expr_view e.now)) ≡ true }
    ensures value { IfOk result (λ x. boxed_view x.value
        ≡ argument_in (N.env names.now) (wants_view wants.entry) (expr_view e.now)) }
    ensures given { IfOk result (λ x. x.given ≡ given_param (kind_of (N.env names.now) (expr_view e.now))) }
    ensures met { IfOk result (λ x. x.met ≡ first_met (wants_view wants.entry) (argument_form (N.env names.now)
        (expr_view e.now)) (operand (kind_of (N.env names.now) (expr_view e.now)) (expr_view e.now))) }
{
    if wants_module(wants) && is_module_address(names, e) {
        let module = module_behind(alloc, e)?;
        return Ok(Argument {
            value: module,
            given: Param::ObjectOrNull,
            met: true,
        });
    }
    let pos = expr_pos(e);
    let form = argument_form(names, e);
    if wants_place(wants) && is_place(names, e) {
        let a = resolve_place(alloc, names, e)?;
        let old = empty(alloc, pos, a)?;
        return Ok(Argument {
            value: old.value,
            given: given_param(old.kind),
            met: first_met(wants, form, operand(old.kind, e)),
        });
    }
    let a = resolve_expr(alloc, names, e)?;
    let met = first_met(wants, form, operand(a.kind, e));
    let value = convert(alloc, pos, want_kind(wants), a.kind, a.value)?;
    Ok(Argument {
        value,
        given: given_param(a.kind),
        met,
    })
}
