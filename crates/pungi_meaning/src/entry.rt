// The entries of a function.
ghost use Rattle.std.specs.Prelude.{◌≡◌, Some};
ghost use Rattle.pungi_types.specs.Operators.{is_integer, is_object};
ghost use Rattle.pungi_meaning.specs.Entries.{fits_kind, fits_param, fit_params, entry_fits};

use crate::fits;
use pungi_base::{Entry, Value};
use pungi_resolved::Function;
use pungi_types::ValueKind;

fn is_integer(kind: ValueKind) -> bool
    ensures { result ≡ is_integer (Some kind) }
{
    match kind {
        ValueKind::Int | ValueKind::Long | ValueKind::Size => true,
        _ => false,
    }
}

fn is_object(kind: ValueKind) -> bool
    ensures { result ≡ is_object (Some kind) }
{
    match kind {
        ValueKind::Object(_) => true,
        _ => false,
    }
}

/// A value is one of this kind, where there are so many objects.
fn fits_kind(objects: u32, kind: ValueKind, value: Value) -> bool
    ensures { result ≡ fits_kind objects kind value }
{
    match value {
        Value::Int(n) => is_integer(kind) && fits(kind, n),
        Value::Object(object) => is_object(kind) && object < objects,
        Value::Text => match kind {
            ValueKind::Text => true,
            _ => false,
        },
        Value::Null => match kind {
            ValueKind::Text | ValueKind::Object(_) => true,
            _ => false,
        },
    }
}

fn fits_param(objects: u32, param: Option<ValueKind>, value: Value) -> bool
    ensures { result ≡ fits_param objects param value }
{
    match param {
        Some(kind) => fits_kind(objects, kind, value),
        None => false,
    }
}

/// One value of its kind for each parameter.
#[tactic(auto, using(crate::proofs::LocalLemmas::fit_step, crate::proofs::LocalLemmas::fit_lengths, crate::proofs::LocalLemmas::fit_end))]
fn fit_params(objects: u32, params: &[Option<ValueKind>], args: &[Value]) -> bool
    ensures { result ≡ fit_params objects params.now args.now }
{
    if params.len() != args.len() {
        return false;
    }
    for i in 0..args.len() {
        if !fits_param(objects, params[i], args[i]) {
            return false;
        }
    }
    true
}

/// Whether an entry fits a function: one value of the right kind and range for each parameter, at least as many objects
/// as the file has statics and fewer than 2^31, and no object beyond them.
pub fn entry_ok(f: &Function, statics: u32, entry: &Entry) -> bool
    ensures { result ≡ entry_fits f.now.params statics entry.now }
{
    statics <= entry.objects
        && entry.objects < 1 << 31
        && fit_params(entry.objects, f.params.as_slice(), entry.args.as_slice())
}
