//! Calls of functions and of the API (C11 6.5.2.2).
ghost use Rattle.std.specs.Prelude.{◌≡◌, ◌++◌, IfOk, OnOk, map, true, false};
ghost use Rattle.pungi_api.specs.Signatures.{signature_of};
ghost use Rattle.pungi_types.specs.Standing.{is_defined};
ghost use Rattle.pungi_types.specs.Calls.{callee, callee_of, special_form};
ghost use Rattle.pungi_types.specs.WantsView.{wants_view};
ghost use Rattle.pungi_types.specs.Formats.{arg_at, format_at};
ghost use Rattle.pungi_types.specs.declared.kind.ValueKind.TheVariants as kinds;
ghost use Rattle.pungi_resolve.specs.Exprs.{call_value, callee_name, called_function, row_value, wanted_kind};
ghost use Rattle.pungi_resolve.specs.Outputs.{and_last, build_value, next_value, number_in_front, parse_value};
ghost use Rattle.pungi_resolve.specs.Outputs.{unpack_value};
ghost use Rattle.pungi_resolve.specs.Sound.{is_sound};
ghost use Rattle.pungi_tree.specs.ExprView.{expr_view, exprs_of};
ghost use Rattle.pungi_resolved.specs.Values as plain;
ghost use Rattle.pungi_resolved.specs.ValueView.{boxed_view, value_view, values_of};

use crate::outputs::{
    Ending, built_signature, next_ending, parse_ending, position_local, unpack_ending,
};
use crate::typed::{Arguments, Typed};
use pungi_api::{BoxedSignature, Form, Param, Row, Special, signature_of};
use pungi_base::{Memory, Name, Pos, Seq};
use pungi_resolved::{CalledFunction, Place, Value, ValueNode};
use pungi_tree::{Expr, ExprNode};
use pungi_types::wants::{first_want, other_wants};
use pungi_types::{Lookup, ValueKind, Want, Wants};
use std::alloc::Global;

/// The rule of its own that a row of this form has, if it has one.
fn special_form(form: Form) -> Option<Special>
    ensures { result ≡ special_form form }
{
    match form {
        Form::Plain => None,
        Form::Special(special) => Some(special),
    }
}

/// The signature of a call of a row with such arguments.
fn boxed_signature(alloc: Global, row: &Row, given: &Seq<Param>) -> Result<BoxedSignature, Memory>
    ensures { IfOk result (λ g. g ≡ signature_of row.now given.now) }
{
    BoxedSignature::new(alloc, signature_of(alloc, row, given.as_slice())?)
}

/// A call of a row whose arguments all have a value.
fn call_valued(
    alloc: Global,
    row: &Row,
    pos: Pos,
    name: Name,
    args: Arguments,
    kind: Option<ValueKind>,
) -> Result<Typed, Memory>
    ensures value { IfOk result (λ x. boxed_view x.value ≡ plain.called_row pos name (signature_of row.now args.given)
        (values_of (map value_view args.values.items))) }
    ensures kind { IfOk result (λ x. x.kind ≡ kind) }
{
    let signature = boxed_signature(alloc, row, &args.given)?;
    Typed::new(
        alloc,
        pos,
        ValueNode::CalledRow(name, signature, args.values),
        kind,
    )
}

/// A call that comes to this.
fn call_ending(
    alloc: Global,
    pos: Pos,
    name: Name,
    ending: Ending,
    values: Vec<Value>,
    kind: Option<ValueKind>,
) -> Result<Typed, Memory>
    ensures value { IfOk result (λ x. boxed_view x.value ≡ plain.called_with_outputs pos name ending.signature
        (values_of (map value_view values.items)) ending.steps) }
    ensures kind { IfOk result (λ x. x.kind ≡ kind) }
{
    Typed::new(
        alloc,
        pos,
        ValueNode::CalledWithOutputs(name, ending.signature, values, ending.steps),
        kind,
    )
}

/// A call of `PyArg_ParseTuple`.
fn call_parse<N: Lookup>(
    alloc: Global,
    names: &N,
    pos: Pos,
    name: Name,
    list: &[Expr],
    args: Arguments,
    kind: Option<ValueKind>,
) -> Result<Typed, Memory>
    requires { is_sound (parse_value pos name (format_at (N.env names.now).file.texts 1
        (exprs_of (map expr_view list.now))) args.outs (values_of (map value_view args.values.items))) ≡ true }
    ensures value { IfOk result (λ x. boxed_view x.value ≡ parse_value pos name (format_at (N.env names.now).file.texts
        1 (exprs_of (map expr_view list.now))) args.outs (values_of (map value_view args.values.items))) }
    ensures kind { IfOk result (λ x. x.kind ≡ kind) }
{
    let ending = parse_ending(alloc, names, list, args.outs.as_slice())?;
    call_ending(alloc, pos, name, ending, args.values, kind)
}

/// A call of `PyArg_UnpackTuple`.
fn call_unpack(
    alloc: Global,
    pos: Pos,
    name: Name,
    list: &[Expr],
    args: Arguments,
    kind: Option<ValueKind>,
) -> Result<Typed, Memory>
    requires { is_sound (unpack_value pos name (number_in_front (arg_at 2 (exprs_of (map expr_view list.now))))
        args.outs (values_of (map value_view args.values.items))) ≡ true }
    ensures value { IfOk result (λ x. boxed_view x.value ≡ unpack_value pos name (number_in_front
        (arg_at 2 (exprs_of (map expr_view list.now)))) args.outs (values_of (map value_view args.values.items))) }
    ensures kind { IfOk result (λ x. x.kind ≡ kind) }
{
    let ending = unpack_ending(alloc, list, args.outs.as_slice())?;
    call_ending(alloc, pos, name, ending, args.values, kind)
}

/// The position of `PyDict_Next`, as it is read.
fn position_value(pos: Pos, local: usize) -> Value
    ensures { value_view result ≡ plain.read pos kinds.Size (plain.local_place pos local) }
{
    let node = ValueNode::Read(ValueKind::Size, Place::Local(pos, local));
    Value { pos, node }
}

/// Adds the position of `PyDict_Next`, which is read where the call stands.
fn put_position(values: &mut Vec<Value>, pos: Pos, local: usize) -> Result<(), Memory>
    ensures { OnOk result (values_of (map value_view values.new.items) ≡ and_last (values_of
        (map value_view values.old.items)) (plain.read pos kinds.Size (plain.local_place pos local))) }
{
    values.push(position_value(pos, local))?;
    Ok(())
}

/// A call of `PyDict_Next`.
fn call_next(
    alloc: Global,
    pos: Pos,
    name: Name,
    args: Arguments,
    kind: Option<ValueKind>,
) -> Result<Typed, Memory>
    requires { is_sound (next_value pos name args.outs (values_of (map value_view args.values.items))) ≡ true }
    ensures value { IfOk result (λ x. boxed_view x.value
        ≡ next_value pos name args.outs (values_of (map value_view args.values.items))) }
    ensures kind { IfOk result (λ x. x.kind ≡ kind) }
{
    match position_local(args.outs.as_slice()) {
        None => unreachable!(),
        Some(local) => {
            let mut values = args.values;
            put_position(&mut values, pos, local)?;
            let ending = next_ending(alloc, args.outs.as_slice())?;
            call_ending(alloc, pos, name, ending, values, kind)
        }
    }
}

/// A call of `Py_BuildValue`.
fn call_build<N: Lookup>(
    alloc: Global,
    names: &N,
    pos: Pos,
    name: Name,
    list: &[Expr],
    args: Arguments,
    kind: Option<ValueKind>,
) -> Result<Typed, Memory>
    requires { is_sound (build_value pos name (format_at (N.env names.now).file.texts 0
        (exprs_of (map expr_view list.now))) (values_of (map value_view args.values.items))) ≡ true }
    ensures value { IfOk result (λ x. boxed_view x.value ≡ build_value pos name (format_at (N.env names.now).file.texts
        0 (exprs_of (map expr_view list.now))) (values_of (map value_view args.values.items))) }
    ensures kind { IfOk result (λ x. x.kind ≡ kind) }
{
    let signature = built_signature(alloc, names, list)?;
    Typed::new(
        alloc,
        pos,
        ValueNode::CalledUnlessNull(name, signature, args.values),
        kind,
    )
}

/// A call of a row, by the rule of its own that it has.
fn call_special<N: Lookup>(
    alloc: Global,
    names: &N,
    row: &Row,
    pos: Pos,
    name: Name,
    list: &[Expr],
    args: Arguments,
    kind: Option<ValueKind>,
) -> Result<Typed, Memory>
    requires { is_sound (row_value (N.env names.now) pos row.now name (exprs_of (map expr_view list.now)) args.given
        args.outs (values_of (map value_view args.values.items))) ≡ true }
    ensures value { IfOk result (λ x. boxed_view x.value ≡ row_value (N.env names.now) pos row.now name
        (exprs_of (map expr_view list.now)) args.given args.outs (values_of (map value_view args.values.items))) }
    ensures kind { IfOk result (λ x. x.kind ≡ kind) }
{
    match special_form(row.form) {
        Some(Special::ParseTuple) => call_parse(alloc, names, pos, name, list, args, kind),
        Some(Special::UnpackTuple) => call_unpack(alloc, pos, name, list, args, kind),
        Some(Special::DictNext) => call_next(alloc, pos, name, args, kind),
        Some(Special::BuildValue) => call_build(alloc, names, pos, name, list, args, kind),
        _ => call_valued(alloc, row, pos, name, args, kind),
    }
}

/// A call of the API.
fn call_row<N: Lookup>(
    alloc: Global,
    names: &N,
    pos: Pos,
    name: Name,
    list: &[Expr],
    args: Arguments,
    kind: Option<ValueKind>,
) -> Result<Typed, Memory>
    requires other { is_defined (callee_of (N.env names.now) name.0) ≡ false }
    requires sound { is_sound (call_value (N.env names.now) pos (callee_of (N.env names.now) name.0) name
        (exprs_of (map expr_view list.now)) args.given args.outs (values_of (map value_view args.values.items)))
        ≡ true }
    ensures value { IfOk result (λ x. boxed_view x.value
        ≡ call_value (N.env names.now) pos (callee_of (N.env names.now) name.0) name
        (exprs_of (map expr_view list.now)) args.given args.outs (values_of (map value_view args.values.items))) }
    ensures kind { IfOk result (λ x. x.kind ≡ kind) }
{
    match names.row(name) {
        None => unreachable!(),
        Some(row) => call_special(alloc, names, row, pos, name, list, args, kind),
    }
}

/// Adds the kinds of parameters.
fn put_kinds(kinds: &mut Seq<Option<ValueKind>>, wants: Wants<'_>) -> Result<(), Memory>
    ensures { OnOk result (kinds.new ≡ kinds.old ++ map wanted_kind (wants_view wants.entry)) }
{
    let mut rest = wants;
    while let Some(want) = first_want(rest) {
        kinds.push(wanted_kind(want))?;
        rest = other_wants(rest);
    }
    Ok(())
}

fn wanted_kind(want: Want) -> Option<ValueKind>
    ensures { result ≡ wanted_kind want }
{
    match want {
        Want::OfKind(kind) => Some(kind),
        Want::Anything
        | Want::ModuleTable
        | Want::ObjectPlace
        | Want::Count(_)
        | Want::NullConstant
        | Want::AtMost(_)
        | Want::Format(_)
        | Want::Output(_)
        | Want::OptionalOutput(_)
        | Want::Position => None,
    }
}

/// The function of the file that is called by this name.
fn called_function<N: Lookup>(
    alloc: Global,
    names: &N,
    name: Name,
) -> Result<CalledFunction, Memory>
    ensures { IfOk result (λ f. f ≡ called_function (N.env names.now) name (callee_of (N.env names.now) name.0)) }
{
    let mut params = Seq::new(Vec::new(alloc));
    put_kinds(&mut params, names.wants(name, 0))?;
    let number = match names.function_number(name) {
        None => 0,
        Some(number) => number,
    };
    Ok(CalledFunction {
        number,
        params,
        result: names.result_kind(name),
    })
}

/// A call of a function of the file.
fn call_defined<N: Lookup>(
    alloc: Global,
    names: &N,
    pos: Pos,
    name: Name,
    values: Vec<Value>,
    kind: Option<ValueKind>,
) -> Result<Typed, Memory>
    ensures value { IfOk result (λ x. boxed_view x.value ≡ plain.called pos (called_function (N.env names.now) name
        (callee_of (N.env names.now) name.0)) (values_of (map value_view values.items))) }
    ensures kind { IfOk result (λ x. x.kind ≡ kind) }
{
    let function = called_function(alloc, names, name)?;
    Typed::new(alloc, pos, ValueNode::Called(function, values), kind)
}

/// A call of this kind with these arguments.
pub(crate) fn call<N: Lookup>(
    alloc: Global,
    names: &N,
    pos: Pos,
    f: &Expr,
    list: &[Expr],
    args: Arguments,
    kind: Option<ValueKind>,
) -> Result<Typed, Memory>
    requires { is_sound (call_value (N.env names.now) pos (callee (N.env names.now) (expr_view f.now))
        (callee_name (expr_view f.now)) (exprs_of (map expr_view list.now)) args.given args.outs
        (values_of (map value_view args.values.items))) ≡ true }
    ensures value { IfOk result (λ x. boxed_view x.value
        ≡ call_value (N.env names.now) pos (callee (N.env names.now) (expr_view f.now)) (callee_name (expr_view f.now))
        (exprs_of (map expr_view list.now)) args.given args.outs (values_of (map value_view args.values.items))) }
    ensures kind { IfOk result (λ x. x.kind ≡ kind) }
{
    match &f.node {
        ExprNode::Word(name) => {
            if names.is_defined_call(*name) {
                call_defined(alloc, names, pos, *name, args.values, kind)
            } else {
                call_row(alloc, names, pos, *name, list, args, kind)
            }
        }
        _ => unreachable!(),
    }
}
