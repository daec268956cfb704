//! What the arguments of calls with formats and outputs are to be (Python/C API Reference Manual 3.11, 'Parsing
//! arguments and building values').
ghost use Rattle.std.specs.Prelude.{◌≡◌, ◌∷◌, ◌++◌, [], length, map, replicate, option_map, true, IfOk, OnOk};
ghost use Rattle.std.specs.Prelude.{if◌then◌else◌};
ghost use Rattle.pungi_tree.specs.ExprView.{expr_view, exprs_of};
ghost use Rattle.pungi_api.specs.Signatures.{unit_param};
ghost use Rattle.pungi_types.specs.Formats.{is_few, literal, literal_of, arg_at, format_at, expr_pos, format_pos};
ghost use Rattle.pungi_types.specs.Formats.{param_want, unit_wants, in_wants, parse_wants, build_wants, unpack_wants};
ghost use Rattle.pungi_types.specs.Formats.{an_object};
ghost use Rattle.pungi_types.specs.declared.wants.Want.TheVariants as wanted;
ghost use Rattle.pungi_api.specs.declared.answer.Answer.TheVariants as answers;

use crate::wants::{an_object, param_want};
use crate::{Lookup, ValueKind, Want};
use pungi_api::{Answer, unit_param};
use pungi_base::{Memory, Name, Pos, Seq};
use pungi_format::{FormatFault, InUnit, OutUnit, build_units, parse_units};
use pungi_tree::{Expr, ExprNode};
use std::alloc::Global;

/// So many arguments no run can count.
const TOO_MANY: usize = 1 << 31;

/// Where an expression stands.
pub fn expr_pos(e: &Expr) -> Pos
    ensures { result ≡ expr_pos (expr_view e.now) }
{
    match &e.node {
        ExprNode::Word(_)
        | ExprNode::Int { .. }
        | ExprNode::Float
        | ExprNode::Char(_)
        | ExprNode::Text(_)
        | ExprNode::Null
        | ExprNode::Paren(_)
        | ExprNode::Unary(_, _)
        | ExprNode::Post(_, _)
        | ExprNode::Binary(_, _, _)
        | ExprNode::Assign(_, _, _)
        | ExprNode::Cond(_, _, _)
        | ExprNode::Comma(_, _)
        | ExprNode::Cast(_, _)
        | ExprNode::SizeOfType(_)
        | ExprNode::Call(_, _)
        | ExprNode::New(_, _)
        | ExprNode::Index(_, _)
        | ExprNode::Dot(_, _)
        | ExprNode::Arrow(_, _) => e.pos,
    }
}

/// The argument at a place.
fn arg_at(list: &[Expr], place: usize) -> Option<&Expr>
    ensures { option_map (λ e. expr_view e.now) result ≡ arg_at place (exprs_of (map expr_view list.now)) }
{
    list.get(place)
}

/// Where the format at a place stands.
pub(crate) fn format_pos(place: Option<usize>, list: &[Expr]) -> Option<Pos>
    ensures { result ≡ format_pos place (exprs_of (map expr_view list.now)) }
{
    match place {
        None => None,
        Some(place) => match arg_at(list, place) {
            None => None,
            Some(e) => Some(expr_pos(e)),
        },
    }
}

/// The bytes of a string literal of these parts.
fn literal<N: Lookup>(alloc: Global, names: &N, parts: &[Name]) -> Result<Seq<u8>, Memory>
    ensures { IfOk result (λ text. text ≡ literal (N.env names.now).file.texts parts.now) }
{
    let mut text = Vec::new(alloc);
    for part in parts {
        text.extend_from_slice(names.text(*part))?;
    }
    Ok(Seq::new(text))
}

/// The bytes of an expression that is a string literal.
fn literal_of<N: Lookup>(alloc: Global, names: &N, e: &Expr) -> Result<Option<Seq<u8>>, Memory>
    ensures { IfOk result (λ text. text ≡ literal_of (N.env names.now).file.texts (expr_view e.now)) }
{
    match &e.node {
        ExprNode::Text(parts) => Ok(Some(literal(alloc, names, parts)?)),
        _ => Ok(None),
    }
}

/// The format that stands at a place of a call's arguments, if a string literal does.
pub fn format_at<N: Lookup>(
    alloc: Global,
    names: &N,
    place: usize,
    list: &[Expr],
) -> Result<Option<Seq<u8>>, Memory>
    ensures { IfOk result (λ text. text ≡ format_at (N.env names.now).file.texts place
        (exprs_of (map expr_view list.now))) }
{
    match arg_at(list, place) {
        None => Ok(None),
        Some(e) => literal_of(alloc, names, e),
    }
}

/// No more arguments than a run can count.
fn is_few(count: usize) -> bool
    ensures { result ≡ is_few count }
{
    count < TOO_MANY
}

/// Adds the arguments of a unit.
fn put_unit(wants: &mut Seq<Want>, unit: InUnit) -> Result<(), Memory>
    ensures { OnOk result (wants.new ≡ wants.old ++ unit_wants unit) }
{
    match unit {
        InUnit::Object => wants.push(Want::Output(Answer::BorrowedSure)),
        InUnit::ObjectOf => {
            wants.push(an_object())?;
            wants.push(Want::Output(Answer::BorrowedSure))
        }
        InUnit::Int => wants.push(Want::Output(Answer::Int)),
        InUnit::Long => wants.push(Want::Output(Answer::Long)),
        InUnit::Size => wants.push(Want::Output(Answer::AnySize)),
        InUnit::Truth => wants.push(Want::Output(Answer::Flag)),
        InUnit::Text => wants.push(Want::Output(Answer::TextSure)),
        InUnit::TextOrNull => wants.push(Want::Output(Answer::Text)),
    }
}

/// Adds the arguments of these units.
fn put_in_units(wants: &mut Seq<Want>, units: &[InUnit]) -> Result<(), Memory>
    ensures { OnOk result (wants.new ≡ wants.old ++ in_wants units.now) }
{
    for unit in units {
        put_unit(wants, *unit)?;
    }
    Ok(())
}

/// Adds the arguments of these units.
fn put_out_units(wants: &mut Seq<Want>, units: &[OutUnit]) -> Result<(), Memory>
    ensures { OnOk result (wants.new ≡ wants.old ++ map param_want (map unit_param units.now)) }
{
    for unit in units {
        wants.push(param_want(unit_param(*unit)))?;
    }
    Ok(())
}

/// Adds so many variables that get objects.
fn put_objects(wants: &mut Seq<Want>, count: usize) -> Result<(), Memory>
    ensures { OnOk result (wants.new ≡ wants.old ++ replicate count (wanted.Output answers.BorrowedSure)) }
{
    for _ in 0..count {
        wants.push(Want::Output(Answer::BorrowedSure))?;
    }
    Ok(())
}

/// The arguments of `PyArg_ParseTuple` with these units.
fn in_units_wants(alloc: Global, units: &[InUnit]) -> Result<Seq<Want>, Memory>
    ensures { IfOk result (λ ws. ws ≡ an_object ∷ wanted.Format (is_few (length units.now))
        ∷ (if is_few (length units.now) then in_wants units.now else [])) }
{
    let few = is_few(units.len());
    let mut wants = Seq::new(Vec::new(alloc));
    wants.push(an_object())?;
    wants.push(Want::Format(few))?;
    if few {
        put_in_units(&mut wants, units)?;
    }
    Ok(wants)
}

/// Those of `PyArg_ParseTuple` without a format that can be read.
fn no_parse_wants(alloc: Global) -> Result<Seq<Want>, Memory>
    ensures { IfOk result (λ ws. ws ≡ parse_wants None) }
{
    let mut wants = Seq::new(Vec::new(alloc));
    wants.push(an_object())?;
    wants.push(Want::Format(false))?;
    Ok(wants)
}

/// Those of `PyArg_ParseTuple` with this format.
fn text_parse_wants(alloc: Global, text: &[u8]) -> Result<Seq<Want>, Memory>
    ensures { IfOk result (λ ws. ws ≡ parse_wants (Some text.now)) }
{
    match parse_units(alloc, text) {
        Ok(format) => in_units_wants(alloc, format.units.as_slice()),
        Err(FormatFault::Memory) => Err(Memory),
        Err(_) => no_parse_wants(alloc),
    }
}

/// The arguments of `PyArg_ParseTuple`, where a string literal is its format or not.
pub(crate) fn parse_wants(alloc: Global, format: &Option<Seq<u8>>) -> Result<Seq<Want>, Memory>
    ensures { IfOk result (λ ws. ws ≡ parse_wants format.now) }
{
    match format {
        None => no_parse_wants(alloc),
        Some(text) => text_parse_wants(alloc, text.as_slice()),
    }
}

/// The arguments of `Py_BuildValue` with these units.
fn out_units_wants(alloc: Global, units: &[OutUnit]) -> Result<Seq<Want>, Memory>
    ensures { IfOk result (λ ws. ws ≡ wanted.Format true ∷ map param_want (map unit_param units.now)) }
{
    let mut wants = Seq::new(Vec::new(alloc));
    wants.push(Want::Format(true))?;
    put_out_units(&mut wants, units)?;
    Ok(wants)
}

/// Those of `Py_BuildValue` without a format that can be read.
fn no_build_wants(alloc: Global) -> Result<Seq<Want>, Memory>
    ensures { IfOk result (λ ws. ws ≡ build_wants None) }
{
    let mut wants = Seq::new(Vec::new(alloc));
    wants.push(Want::Format(false))?;
    Ok(wants)
}

/// Those of `Py_BuildValue` with this format.
fn text_build_wants(alloc: Global, text: &[u8]) -> Result<Seq<Want>, Memory>
    ensures { IfOk result (λ ws. ws ≡ build_wants (Some text.now)) }
{
    match build_units(alloc, text) {
        Ok(units) => out_units_wants(alloc, units.as_slice()),
        Err(FormatFault::Memory) => Err(Memory),
        Err(_) => no_build_wants(alloc),
    }
}

/// The arguments of `Py_BuildValue`, where a string literal is its format or not.
pub(crate) fn build_wants(alloc: Global, format: &Option<Seq<u8>>) -> Result<Seq<Want>, Memory>
    ensures { IfOk result (λ ws. ws ≡ build_wants format.now) }
{
    match format {
        None => no_build_wants(alloc),
        Some(text) => text_build_wants(alloc, text.as_slice()),
    }
}

/// The arguments of `PyArg_UnpackTuple`, where it has so many.
pub(crate) fn unpack_wants(alloc: Global, arguments: usize) -> Result<Seq<Want>, Memory>
    ensures { IfOk result (λ ws. ws ≡ unpack_wants arguments) }
{
    let mut wants = Seq::new(Vec::new(alloc));
    if is_few(arguments) {
        let items = arguments.saturating_sub(4);
        wants.push(an_object())?;
        wants.push(Want::OfKind(ValueKind::Text))?;
        wants.push(Want::AtMost(items))?;
        wants.push(Want::Count(items))?;
        put_objects(&mut wants, items)?;
    }
    Ok(wants)
}
