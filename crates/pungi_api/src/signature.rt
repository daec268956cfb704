ghost use Rattle.std.specs.Prelude.{◌≡◌, ◌++◌, List, drop, map, replicate, true, IfOk, OnOk};
ghost use Rattle.pungi_format.specs.declared.out_unit.OutUnit.{OutUnit as UnitOf};
ghost use Rattle.pungi_api.specs.declared.answer.Answer.{Answer as AnswerOf};
ghost use Rattle.pungi_api.specs.declared.param.Param.{Param as ParamOf};
ghost use Rattle.pungi_api.specs.declared.row.Row.{Row as RowOf};
ghost use Rattle.pungi_api.specs.Rows.{is_row, fits_int};
ghost use Rattle.pungi_api.specs.Signatures.{signature_of, plain_signature, special_signature, own_effect, own_params};
ghost use Rattle.pungi_api.specs.Signatures.{own_answer, is_signature, simple_signature, output_signature};
ghost use Rattle.pungi_api.specs.Signatures.{unit_param, unit_take, build_signature, null_signature};
ghost use Rattle.pungi_api.specs.Signatures.{typed_params, parse_params, unpack_params, next_params, made_signature};

use crate::{Answer, CallAnswer, Form, OwnEffect, Param, Row, Special, Take};
use pungi_base::{Memory, Seq};
use pungi_format::{InUnit, OutUnit};
use std::alloc::Global;

/// What one call of the API takes, takes over and returns, whatever its values. Only arguments that have values count:
/// not the variables that are written, and not what the call's own text says, as a format does.
#[derive(Drop)]
pub struct Signature {
    /// What it does in place of what follows, where that doesn't say all.
    pub own: Option<OwnEffect>,
    pub params: Seq<Param>,
    /// One for each parameter.
    pub takes: Seq<Take>,
    pub answer: CallAnswer,
}

impl Signature {
    /// The same signature.
    pub fn copy(&self, alloc: Global) -> Result<Signature, Memory>
        ensures { IfOk result (λ g. g ≡ self.now) }
    {
        let params = self.params.copy(alloc)?;
        let takes = self.takes.copy(alloc)?;
        Ok(Signature {
            own: self.own,
            params,
            takes,
            answer: self.answer,
        })
    }

    /// The signature of the same call, where it returns `NULL`.
    pub fn returning_null(&self, alloc: Global) -> Result<Signature, Memory>
        ensures { IfOk result (λ g. g ≡ null_signature self.now) }
    {
        let mut signature = self.copy(alloc)?;
        signature.answer = CallAnswer::Of(Answer::Null);
        Ok(signature)
    }
}

/// What a call with a rule of its own does in place of what the rest of its signature says, if anything.
fn own_effect(special: Special) -> Option<OwnEffect>
    ensures { result ≡ own_effect special }
{
    match special {
        Special::IncRef | Special::XIncRef | Special::NewRef | Special::XNewRef => {
            Some(OwnEffect::IncRef)
        }
        Special::DecRef | Special::XDecRef | Special::Clear => Some(OwnEffect::DecRef),
        _ => None,
    }
}

fn own_answer(special: Special) -> CallAnswer
    ensures { result ≡ own_answer special }
{
    match special {
        Special::NewRef | Special::XNewRef => CallAnswer::Argument,
        Special::TuplePack | Special::CallFunctionObjArgs => CallAnswer::Of(Answer::New),
        Special::ErrFormat => CallAnswer::Of(Answer::Null),
        _ => CallAnswer::Of(Answer::Void),
    }
}

/// The sorts of the arguments after the first.
fn after_first(given: &[Param]) -> &[Param]
    ensures { result.now ≡ drop 1 given.now }
{
    match given {
        [] => given,
        [_, rest @ ..] => rest,
    }
}

/// Adds so many of one sort.
#[tactic(auto, using(crate::proofs::SignatureLemmas::replicate_step))]
fn put_alike<T>(list: &mut Seq<T>, item: T, count: usize) -> Result<(), Memory>
where
    T: Copy,
    ensures { OnOk result (list.new ≡ list.old ++ replicate count item) }
{
    for _ in 0..count {
        list.push(item)?;
    }
    Ok(())
}

/// Adds these parameters.
fn put_all(params: &mut Seq<Param>, given: &[Param]) -> Result<(), Memory>
    ensures { OnOk result (params.new ≡ params.old ++ given.now) }
{
    for param in given {
        params.push(*param)?;
    }
    Ok(())
}

/// What the arguments of a call with a rule of its own may be, where they are of these sorts.
fn own_params(alloc: Global, special: Special, given: &[Param]) -> Result<Seq<Param>, Memory>
    ensures { IfOk result (λ params. params ≡ own_params special given.now) }
{
    let mut params = Seq::new(Vec::new(alloc));
    match special {
        Special::IncRef | Special::DecRef | Special::NewRef => params.push(Param::Object)?,
        Special::TuplePack => {
            params.push(Param::Size)?;
            put_alike(&mut params, Param::Object, given.len().saturating_sub(1))?;
        }
        Special::CallFunctionObjArgs => {
            params.push(Param::Object)?;
            put_alike(
                &mut params,
                Param::ObjectOrNull,
                given.len().saturating_sub(1),
            )?;
        }
        Special::ErrFormat => {
            params.push(Param::Object)?;
            params.push(Param::Text)?;
            put_all(&mut params, after_first(after_first(given)))?;
        }
        _ => params.push(Param::ObjectOrNull)?,
    }
    Ok(params)
}

/// The signature of a call of a row whose parameters, answer and arguments that it takes over say all.
fn plain_signature(alloc: Global, row: &Row) -> Result<Signature, Memory>
    ensures { IfOk result (λ g. g ≡ plain_signature row.now) }
{
    let params = row.params.copy(alloc)?;
    let takes = row.takes.copy(alloc)?;
    Ok(Signature {
        own: None,
        params,
        takes,
        answer: CallAnswer::Of(row.answer),
    })
}

/// The signature of a call with a rule of its own, whose arguments are of these sorts.
fn special_signature(alloc: Global, special: Special, given: &[Param]) -> Result<Signature, Memory>
    ensures { IfOk result (λ g. g ≡ special_signature special given.now) }
{
    let params = own_params(alloc, special, given)?;
    let mut takes = Seq::new(Vec::new(alloc));
    put_alike(&mut takes, Take::Never, params.len())?;
    Ok(Signature {
        own: own_effect(special),
        params,
        takes,
        answer: own_answer(special),
    })
}

/// The signature of a call of a row whose arguments are of these sorts (Python/C API Reference Manual 3.11).
pub fn signature_of(alloc: Global, row: &Row, given: &[Param]) -> Result<Signature, Memory>
    ensures { IfOk result (λ g. g ≡ signature_of row.now given.now) }
{
    match row.form {
        Form::Plain => plain_signature(alloc, row),
        Form::Special(special) => special_signature(alloc, special, given),
    }
}

/// The signature of a call that takes over nothing, has no effect of its own and returns this.
pub fn simple_signature(
    alloc: Global,
    params: Seq<Param>,
    answer: Answer,
) -> Result<Signature, Memory>
    ensures { IfOk result (λ g. g ≡ simple_signature params answer) }
{
    let mut takes = Seq::new(Vec::new(alloc));
    put_alike(&mut takes, Take::Never, params.len())?;
    Ok(Signature {
        own: None,
        params,
        takes,
        answer: CallAnswer::Of(answer),
    })
}

/// What is written to a variable whose address is passed comes as if a call without arguments returned it.
pub fn output_signature(alloc: Global, answer: Answer) -> Signature
    ensures { result ≡ output_signature answer }
{
    Signature {
        own: None,
        params: Seq::new(Vec::new(alloc)),
        takes: Seq::new(Vec::new(alloc)),
        answer: CallAnswer::Of(answer),
    }
}

/// What an argument of `Py_BuildValue` may be.
pub fn unit_param(unit: OutUnit) -> Param
    ensures { result ≡ unit_param unit }
{
    match unit {
        OutUnit::Keep | OutUnit::Take => Param::ObjectOrNull,
        OutUnit::Int => Param::Int,
        OutUnit::Long => Param::Long,
        OutUnit::Size => Param::Size,
        OutUnit::TextOrNull => Param::TextOrNull,
    }
}

/// Whether it is taken over.
fn unit_take(unit: OutUnit) -> Take
    ensures { result ≡ unit_take unit }
{
    match unit {
        OutUnit::Take => Take::Always,
        _ => Take::Never,
    }
}

/// Adds what the arguments of these units may be.
fn put_unit_params(params: &mut Seq<Param>, units: &[OutUnit]) -> Result<(), Memory>
    ensures { OnOk result (params.new ≡ params.old ++ map unit_param units.now) }
{
    for unit in units {
        params.push(unit_param(*unit))?;
    }
    Ok(())
}

/// Adds whether they are taken over.
fn put_unit_takes(takes: &mut Seq<Take>, units: &[OutUnit]) -> Result<(), Memory>
    ensures { OnOk result (takes.new ≡ takes.old ++ map unit_take units.now) }
{
    for unit in units {
        takes.push(unit_take(*unit))?;
    }
    Ok(())
}

/// The signature of a call of `Py_BuildValue` with these units in which no object is `NULL` (Python/C API Reference
/// Manual 3.11, 'Parsing arguments and building values').
pub fn build_signature(alloc: Global, units: &[OutUnit]) -> Result<Signature, Memory>
    ensures { IfOk result (λ g. g ≡ build_signature units.now) }
{
    let mut params = Seq::new(Vec::new(alloc));
    params.push(Param::Text)?;
    put_unit_params(&mut params, units)?;
    let mut takes = Seq::new(Vec::new(alloc));
    takes.push(Take::Never)?;
    put_unit_takes(&mut takes, units)?;
    Ok(Signature {
        own: None,
        params,
        takes,
        answer: CallAnswer::Of(Answer::New),
    })
}

/// Adds the types among the arguments of these units.
fn put_typed_params(params: &mut Seq<Param>, units: &[InUnit]) -> Result<(), Memory>
    ensures { OnOk result (params.new ≡ params.old ++ typed_params units.now) }
{
    for unit in units {
        if matches!(unit, InUnit::ObjectOf) {
            params.push(Param::Object)?;
        }
    }
    Ok(())
}

/// What the arguments of `PyArg_ParseTuple` that are no variables may be, where its format has these units.
pub fn parse_params(alloc: Global, units: &[InUnit]) -> Result<Seq<Param>, Memory>
    ensures { IfOk result (λ params. params ≡ parse_params units.now) }
{
    let mut params = Seq::new(Vec::new(alloc));
    params.push(Param::Object)?;
    params.push(Param::Text)?;
    put_typed_params(&mut params, units)?;
    Ok(params)
}

/// Those of `PyArg_UnpackTuple`.
pub fn unpack_params(alloc: Global) -> Result<Seq<Param>, Memory>
    ensures { IfOk result (λ params. params ≡ unpack_params) }
{
    let mut params = Seq::new(Vec::new(alloc));
    params.push(Param::Object)?;
    params.push(Param::Text)?;
    params.push(Param::Size)?;
    params.push(Param::Size)?;
    Ok(params)
}

/// Those of `PyDict_Next`: a dict, and the position that is read.
pub fn next_params(alloc: Global) -> Result<Seq<Param>, Memory>
    ensures { IfOk result (λ params. params ≡ next_params) }
{
    let mut params = Seq::new(Vec::new(alloc));
    params.push(Param::Object)?;
    params.push(Param::Size)?;
    Ok(params)
}

/// The signature of `PyObject_New`, which takes a type and makes an object (Python/C API Reference Manual 3.11,
/// 'Allocating Objects on the Heap').
pub fn made_signature(alloc: Global) -> Result<Signature, Memory>
    ensures { IfOk result (λ g. g ≡ made_signature) }
{
    let mut params = Seq::new(Vec::new(alloc));
    params.push(Param::Object)?;
    simple_signature(alloc, params, Answer::Made)
}

/// A call of a well-formed row has a well-formed signature, and so have the calls that are made of formats.
pub fn signatures_are_well_formed()
    ensures row { (row : RowOf) → (given : List ParamOf) → is_row row ≡ true
        → is_signature (signature_of row given) ≡ true }
    ensures simple { (ps : List ParamOf) → (a : AnswerOf) → fits_int a ≡ true
        → is_signature (simple_signature ps a) ≡ true }
    ensures build { (units : List UnitOf) → is_signature (build_signature units) ≡ true }
    ensures null { (units : List UnitOf) → is_signature (null_signature (build_signature units)) ≡ true }
{}
