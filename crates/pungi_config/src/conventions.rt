//! The keys that declare the convention of one function.
ghost use Rattle.std.specs.Prelude.{◌≡◌, [], IfOk};
ghost use Rattle.toml.specs.View.{view, array_view, table_view};
ghost use Rattle.pungi_api.specs.Terms.{nothing_declared};
ghost use Rattle.pungi_config.specs.Conventions.{is_new_place, take_places, taken_of, with_convention_key};
ghost use Rattle.pungi_config.specs.Conventions.{read_convention_keys};
ghost use Rattle.pungi_config.specs.Wrong.{keys_read};

use crate::limits::TAKEN_LIMIT;
use crate::takes::place_of;
use crate::words::borrowed_of;
use pungi_api::Convention;
use pungi_base::{Memory, Seq};
use std::alloc::Global;
use toml::value::Array;
use toml::{Table, Value};

fn is_new_place(taken: &[u32], place: usize) -> bool
    ensures { result ≡ is_new_place taken.now place }
{
    place < TAKEN_LIMIT && !taken.contains(&(place as u32))
}

fn take_places(alloc: Global, values: &Array) -> Result<Option<Seq<u32>>, Memory>
    ensures { IfOk result (λ taken. taken ≡ take_places [] (array_view values.now)) }
{
    let mut taken = Seq::new(Vec::new(alloc));
    for value in values {
        match place_of(value) {
            Some(place) if is_new_place(taken.as_slice(), place) => taken.push(place as u32)?,
            _ => return Ok(None),
        }
    }
    Ok(Some(taken))
}

/// The places of the parameters that a value numbers.
fn taken_of(alloc: Global, value: &Value) -> Result<Option<Seq<u32>>, Memory>
    ensures { IfOk result (λ taken. taken ≡ taken_of (view value.now)) }
{
    match value.as_array() {
        Some(values) => take_places(alloc, values),
        None => Ok(None),
    }
}

fn with_convention_key(
    alloc: Global,
    key: &str,
    value: &Value,
    convention: Convention,
) -> Result<Option<Convention>, Memory>
    ensures { IfOk result (λ next. next ≡ with_convention_key key.now (view value.now) convention) }
{
    let Convention { borrowed, taken } = convention;
    if key == "returns" {
        match borrowed_of(value) {
            Some(borrowed) => Ok(Some(Convention { borrowed, taken })),
            None => Ok(None),
        }
    } else if key == "takes" {
        match taken_of(alloc, value)? {
            Some(taken) => Ok(Some(Convention { borrowed, taken })),
            None => Ok(None),
        }
    } else {
        Ok(None)
    }
}

/// The convention that the keys of a function declare, or the first wrong key.
pub(crate) fn read_convention_keys<'a>(
    alloc: Global,
    keys: &'a Table,
) -> Result<Result<Convention, &'a str>, Memory>
    ensures { IfOk result (λ read. keys_read read ≡ read_convention_keys nothing_declared (table_view keys.now)) }
{
    let mut convention = Convention::none(alloc);
    for (key, value) in keys {
        match with_convention_key(alloc, key.as_str(), value, convention)? {
            Some(next) => convention = next,
            None => return Ok(Err(key.as_str())),
        }
    }
    Ok(Ok(convention))
}
