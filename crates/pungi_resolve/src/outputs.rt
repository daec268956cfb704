//! What calls write, and what comes after they have ended with a number (Python/C API Reference Manual 3.11, 'Parsing
//! arguments and building values').
ghost use Rattle.std.specs.Prelude.{◌≡◌, ◌++◌, ◌∷◌, [], ◌&&◌, nat_le, nat_lt, pos, negsuc, max, length, map, false, true};
ghost use Rattle.std.specs.Prelude.{is_some, Some, IfOk, OnOk};
ghost use Rattle.std.specs.Option.{option_to_list};
ghost use Rattle.pungi_api.specs.declared.answer.Answer.TheVariants as answer;
ghost use Rattle.pungi_api.specs.Signatures.{simple_signature, parse_params, unpack_params, next_params};
ghost use Rattle.pungi_resolve.specs.Outputs.{local_output, written_local, output_of, ends_if, unit_steps};
ghost use Rattle.pungi_resolve.specs.Outputs.{parser_steps, number_in_front, parsed_ending, parse_ending};
ghost use Rattle.pungi_resolve.specs.Outputs.{unpacked_ending, unpack_ending, next_ending, position_local};
ghost use Rattle.pungi_resolve.specs.Outputs.{built_signature};
ghost use Rattle.pungi_resolved.specs.declared.output_step.OutputStep.TheVariants.{Ends};
ghost use Rattle.pungi_tree.specs.ExprView.{expr_view, exprs_of};
ghost use Rattle.pungi_types.specs.Formats.{arg_at, format_at, is_few};
ghost use Rattle.pungi_types.specs.Names.{meaning_of};
ghost use Rattle.pungi_types.specs.WantsView.{wants_view};

use pungi_api::{
    Answer, BoxedSignature, build_signature, next_params, parse_params, simple_signature,
    unpack_params,
};
use pungi_base::{Memory, Name, Seq};
use pungi_format::{FormatFault, InFormat, build_units, parse_units};
use pungi_resolved::OutputStep;
use pungi_tree::{Expr, ExprNode};
use pungi_types::wants::first_want;
use pungi_types::{Lookup, Standing, Want, Wants, format_at};
use std::alloc::Global;

/// What a call that ends with a number takes and returns, and what comes once it has ended.
#[derive(Drop)]
pub(crate) struct Ending {
    pub(crate) signature: BoxedSignature,
    pub(crate) steps: Seq<OutputStep>,
}

/// The local of a word gets such a value.
fn local_output<N: Lookup>(names: &N, answer: Answer, name: Name) -> Option<OutputStep>
    ensures { option_to_list result ≡ local_output answer (meaning_of (N.env names.now) name.0) }
{
    match names.standing(name) {
        Standing::Local(number) => Some(OutputStep::Writes(number, answer)),
        Standing::Global | Standing::Static(_) | Standing::Other => None,
    }
}

/// The local whose address an argument is gets such a value.
fn written_local<N: Lookup>(names: &N, answer: Answer, e: &Expr) -> Option<OutputStep>
    ensures { option_to_list result ≡ written_local (N.env names.now) answer (expr_view e.now) }
{
    match &e.node {
        ExprNode::Unary(_, a) => match &a.node {
            ExprNode::Word(name) => local_output(names, answer, *name),
            _ => None,
        },
        _ => None,
    }
}

/// What the call writes to an argument where these are wanted.
pub(crate) fn output_of<N: Lookup>(names: &N, wants: Wants<'_>, e: &Expr) -> Option<OutputStep>
    ensures { option_to_list result ≡ output_of (N.env names.now) (wants_view wants.entry) (expr_view e.now) }
{
    match first_want(wants) {
        Some(Want::Output(answer) | Want::OptionalOutput(answer)) => {
            written_local(names, answer, e)
        }
        Some(Want::Position) => written_local(names, Answer::AnySize, e),
        _ => None,
    }
}

/// The number with which a call ends that succeeded before a unit.
fn success_at(number: u32) -> i64
    ensures { result ≡ pos number }
{
    i64::from(number)
}

/// The number with which a call ends that failed before a unit.
fn failure_at(number: u32) -> i64
    ensures { result ≡ negsuc number }
{
    -1 - i64::from(number)
}

/// Adds that the call returns this where it has ended with a number, if that can be.
fn put_end(
    steps: &mut Seq<OutputStep>,
    can_be: bool,
    number: i64,
    gives: bool,
) -> Result<(), Memory>
    ensures { OnOk result (steps.new ≡ steps.old ++ ends_if can_be number gives) }
{
    if can_be {
        steps.push(OutputStep::Ends(number, gives))?;
    }
    Ok(())
}

/// Adds what comes after a unit was reached, and what it writes.
fn put_unit(
    steps: &mut Seq<OutputStep>,
    least: u32,
    fails: bool,
    number: u32,
    out: OutputStep,
) -> Result<(), Memory>
    ensures { OnOk result (steps.new ≡ steps.old ++ (ends_if (nat_le least number) (pos number) true
        ++ (ends_if (fails && nat_lt 0 number) (negsuc number) false ++ out ∷ []))) }
{
    put_end(steps, least <= number, success_at(number), true)?;
    put_end(steps, fails && 0 < number, failure_at(number), false)?;
    steps.push(out)?;
    Ok(())
}

/// Adds the units of an argument parser.
fn put_unit_steps(
    steps: &mut Seq<OutputStep>,
    least: u32,
    fails: bool,
    outs: &[OutputStep],
) -> Result<(), Memory>
    requires { is_few (length outs.now) ≡ true }
    ensures { OnOk result (steps.new ≡ steps.old ++ unit_steps least fails 0 outs.now) }
{
    let mut number = 0;
    for out in outs {
        put_unit(steps, least, fails, number, *out)?;
        number += 1;
    }
    Ok(())
}

/// What comes after an argument parser.
fn parser_steps(
    alloc: Global,
    least: u32,
    fails: bool,
    outs: &[OutputStep],
) -> Result<Seq<OutputStep>, Memory>
    requires { is_few (length outs.now) ≡ true }
    ensures { IfOk result (λ steps. steps ≡ parser_steps least fails outs.now) }
{
    let mut steps = Seq::new(Vec::new(alloc));
    steps.push(OutputStep::Ends(-1, false))?;
    put_unit_steps(&mut steps, least, fails, outs)?;
    Ok(steps)
}

/// The value of a constant.
fn number_in_front(e: &Expr) -> u32
    requires { is_few (number_in_front (Some (expr_view e.now))) ≡ true }
    ensures { result ≡ number_in_front (Some (expr_view e.now)) }
{
    match &e.node {
        ExprNode::Int { value, .. } => { if *value < 0 { 0 } else { *value as u32 } }
        _ => 0,
    }
}

/// The least number of items that a call of `PyArg_UnpackTuple` with these arguments takes.
fn least_items(list: &[Expr]) -> u32
    requires { is_few (number_in_front (arg_at 2 (exprs_of (map expr_view list.now)))) ≡ true }
    ensures { result ≡ number_in_front (arg_at 2 (exprs_of (map expr_view list.now))) }
{
    match list {
        [_, _, e, ..] => number_in_front(e),
        _ => 0,
    }
}

/// The signature of a call of `PyArg_ParseTuple` with so many outputs.
fn parse_signature(
    alloc: Global,
    format: &InFormat,
    outputs: usize,
) -> Result<BoxedSignature, Memory>
    requires outputs { is_few outputs ≡ true }
    requires required { is_few format.now.required ≡ true }
    ensures { IfOk result (λ g. g ≡ simple_signature (parse_params format.now.units)
        (answer.Converted (max 1 outputs) format.now.required outputs)) }
{
    let params = parse_params(alloc, format.units.as_slice())?;
    let answer = Answer::Converted {
        failures: if outputs == 0 { 1 } else { outputs as u32 },
        least: format.required as u32,
        most: outputs as u32,
    };
    BoxedSignature::new(alloc, simple_signature(alloc, params, answer)?)
}

/// What a call of `PyArg_ParseTuple` with such a format comes to.
fn parsed_ending(alloc: Global, format: &InFormat, outs: &[OutputStep]) -> Result<Ending, Memory>
    requires outputs { is_few (length outs.now) ≡ true }
    requires required { is_few format.now.required ≡ true }
    ensures { IfOk result (λ x. x ≡ parsed_ending format.now outs.now) }
{
    let signature = parse_signature(alloc, format, outs.len())?;
    let steps = parser_steps(alloc, format.required as u32, true, outs)?;
    Ok(Ending { signature, steps })
}

/// The same, where this is the text of the format.
fn text_ending(alloc: Global, text: &[u8], outs: &[OutputStep]) -> Result<Ending, Memory>
    requires { is_some (parse_ending (Some text.now) outs.now) ≡ true }
    ensures { IfOk result (λ x. Some x ≡ parse_ending (Some text.now) outs.now) }
{
    match parse_units(alloc, text) {
        Ok(format) => parsed_ending(alloc, &format, outs),
        Err(FormatFault::Memory) => Err(Memory),
        Err(_) => unreachable!(),
    }
}

/// What a call of `PyArg_ParseTuple` with these arguments comes to.
pub(crate) fn parse_ending<N: Lookup>(
    alloc: Global,
    names: &N,
    list: &[Expr],
    outs: &[OutputStep],
) -> Result<Ending, Memory>
    requires { is_some (parse_ending (format_at (N.env names.now).file.texts 1 (exprs_of (map expr_view list.now)))
        outs.now) ≡ true }
    ensures { IfOk result (λ x. Some x ≡ parse_ending (format_at (N.env names.now).file.texts 1
        (exprs_of (map expr_view list.now))) outs.now) }
{
    match format_at(alloc, names, 1, list)? {
        None => unreachable!(),
        Some(text) => text_ending(alloc, text.as_slice(), outs),
    }
}

/// The signature of a call of `PyArg_UnpackTuple` with so many outputs.
fn unpack_signature(alloc: Global, least: u32, outputs: usize) -> Result<BoxedSignature, Memory>
    requires { is_few outputs ≡ true }
    ensures { IfOk result (λ g. g ≡ simple_signature unpack_params (answer.Converted 1 least outputs)) }
{
    let params = unpack_params(alloc)?;
    let answer = Answer::Converted {
        failures: 1,
        least,
        most: outputs as u32,
    };
    BoxedSignature::new(alloc, simple_signature(alloc, params, answer)?)
}

/// What a call of `PyArg_UnpackTuple` of at least so many items comes to.
fn unpacked_ending(alloc: Global, least: u32, outs: &[OutputStep]) -> Result<Ending, Memory>
    requires { is_few (length outs.now) ≡ true }
    ensures { IfOk result (λ x. x ≡ unpacked_ending least outs.now) }
{
    let signature = unpack_signature(alloc, least, outs.len())?;
    let steps = parser_steps(alloc, least, false, outs)?;
    Ok(Ending { signature, steps })
}

/// What a call of `PyArg_UnpackTuple` with these arguments comes to.
pub(crate) fn unpack_ending(
    alloc: Global,
    list: &[Expr],
    outs: &[OutputStep],
) -> Result<Ending, Memory>
    requires { is_some (unpack_ending (number_in_front (arg_at 2 (exprs_of (map expr_view list.now)))) outs.now) ≡ true }
    ensures { IfOk result (λ x. Some x ≡ unpack_ending (number_in_front
        (arg_at 2 (exprs_of (map expr_view list.now)))) outs.now) }
{
    let least = least_items(list);
    unpacked_ending(alloc, least, outs)
}

/// What a call of `PyDict_Next` comes to.
pub(crate) fn next_ending(alloc: Global, outs: &[OutputStep]) -> Result<Ending, Memory>
    ensures { IfOk result (λ x. x ≡ next_ending outs.now) }
{
    let signature = next_signature(alloc)?;
    let steps = next_steps(alloc, outs)?;
    Ok(Ending { signature, steps })
}

fn next_signature(alloc: Global) -> Result<BoxedSignature, Memory>
    ensures { IfOk result (λ g. g ≡ simple_signature next_params answer.Found) }
{
    let params = next_params(alloc)?;
    BoxedSignature::new(alloc, simple_signature(alloc, params, Answer::Found)?)
}

/// Adds these steps.
fn put_steps(steps: &mut Seq<OutputStep>, outs: &[OutputStep]) -> Result<(), Memory>
    ensures { OnOk result (steps.new ≡ steps.old ++ outs.now) }
{
    for out in outs {
        steps.push(*out)?;
    }
    Ok(())
}

fn next_steps(alloc: Global, outs: &[OutputStep]) -> Result<Seq<OutputStep>, Memory>
    ensures { IfOk result (λ steps. steps ≡ Ends (pos 0) false ∷ outs.now) }
{
    let mut steps = Seq::new(Vec::new(alloc));
    steps.push(OutputStep::Ends(0, false))?;
    put_steps(&mut steps, outs)?;
    Ok(steps)
}

/// The local that holds the position of `PyDict_Next`.
pub(crate) fn position_local(outs: &[OutputStep]) -> Option<usize>
    ensures { result ≡ position_local outs.now }
{
    match outs {
        [OutputStep::Writes(local, _), ..] => Some(*local),
        _ => None,
    }
}

/// The signature of a call of `Py_BuildValue` with this format.
fn text_signature(alloc: Global, text: &[u8]) -> Result<BoxedSignature, Memory>
    requires { is_some (built_signature (Some text.now)) ≡ true }
    ensures { IfOk result (λ g. Some g ≡ built_signature (Some text.now)) }
{
    match build_units(alloc, text) {
        Ok(units) => BoxedSignature::new(alloc, build_signature(alloc, units.as_slice())?),
        Err(FormatFault::Memory) => Err(Memory),
        Err(_) => unreachable!(),
    }
}

/// The signature of a call of `Py_BuildValue` with these arguments.
pub(crate) fn built_signature<N: Lookup>(
    alloc: Global,
    names: &N,
    list: &[Expr],
) -> Result<BoxedSignature, Memory>
    requires { is_some (built_signature (format_at (N.env names.now).file.texts 0
        (exprs_of (map expr_view list.now)))) ≡ true }
    ensures { IfOk result (λ g. Some g ≡ built_signature (format_at (N.env names.now).file.texts 0
        (exprs_of (map expr_view list.now)))) }
{
    match format_at(alloc, names, 0, list)? {
        None => unreachable!(),
        Some(text) => text_signature(alloc, text.as_slice()),
    }
}
