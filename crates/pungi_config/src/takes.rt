//! The parameters of a row, and which of them it takes over.
ghost use Rattle.std.specs.Prelude.{◌≡◌, IfOk};
ghost use Rattle.toml.specs.View.{view, array_view};
ghost use Rattle.pungi_api.specs.Rows.{is_object};
ghost use Rattle.pungi_config.specs.Takes.{params_of, params_in, place_of, is_never, take_one, take_each, takes_of};
ghost use Rattle.pungi_config.specs.Takes.{take_at};

use crate::limits::PARAM_LIMIT;
use crate::words::param_of;
use pungi_api::{Param, Take};
use pungi_base::{Memory, Seq};
use std::alloc::Global;
use toml::Value;
use toml::value::Array;

fn params_in(alloc: Global, values: &Array) -> Result<Option<Seq<Param>>, Memory>
    ensures { IfOk result (λ params. params ≡ params_in (array_view values.now)) }
{
    let mut params = Seq::new(Vec::new(alloc));
    for value in values {
        match param_of(value) {
            Some(param) => params.push(param)?,
            None => return Ok(None),
        }
    }
    Ok(Some(params))
}

/// The parameters that a value lists.
pub(crate) fn params_of(alloc: Global, value: &Value) -> Result<Option<Seq<Param>>, Memory>
    ensures { IfOk result (λ params. params ≡ params_of (view value.now)) }
{
    match value.as_array() {
        None => Ok(None),
        Some(values) => match params_in(alloc, values)? {
            Some(params) if params.len() <= PARAM_LIMIT => Ok(Some(params)),
            _ => Ok(None),
        },
    }
}

fn is_object(param: Param) -> bool
    ensures { result ≡ is_object param }
{
    match param {
        Param::Object | Param::ObjectOrNull => true,
        _ => false,
    }
}

fn is_never(take: Take) -> bool
    ensures { result ≡ is_never take }
{
    match take {
        Take::Never => true,
        _ => false,
    }
}

/// The place, from 0, that a value numbers from 1.
pub(crate) fn place_of(value: &Value) -> Option<usize>
    ensures { result ≡ place_of (view value.now) }
{
    match value.as_integer() {
        Some(number) if number >= 1 => Some((number - 1) as usize),
        _ => None,
    }
}

fn take_at(params: &[Param], take: Take, mut takes: Seq<Take>, place: usize) -> Option<Seq<Take>>
    ensures { result ≡ take_at params.now take takes place }
{
    match params.get(place) {
        Some(param) if is_object(*param) => match takes.as_slice().get(place) {
            Some(stated) if is_never(*stated) => {
                takes.set(place, take);
                Some(takes)
            }
            _ => None,
        },
        _ => None,
    }
}

fn take_one(params: &[Param], take: Take, takes: Seq<Take>, value: &Value) -> Option<Seq<Take>>
    ensures { result ≡ take_one params.now take takes (view value.now) }
{
    match place_of(value) {
        Some(place) => take_at(params, take, takes, place),
        None => None,
    }
}

fn take_each(params: &[Param], take: Take, takes: Seq<Take>, values: &Array) -> Option<Seq<Take>>
    ensures { result ≡ take_each params.now take takes (array_view values.now) }
{
    let mut takes = takes;
    for value in values {
        match take_one(params, take, takes, value) {
            Some(more) => takes = more,
            None => return None,
        }
    }
    Some(takes)
}

/// What a row takes over once a value has numbered the parameters of which this holds.
pub(crate) fn takes_of(
    params: &[Param],
    take: Take,
    takes: Seq<Take>,
    value: &Value,
) -> Option<Seq<Take>>
    ensures { result ≡ takes_of params.now take takes (view value.now) }
{
    match value.as_array() {
        Some(values) => take_each(params, take, takes, values),
        None => None,
    }
}
