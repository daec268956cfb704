//! `PyObject_New` (Python/C API Reference Manual 3.11, 'Allocating Objects on the Heap').
ghost use Rattle.std.specs.Prelude.{◌≡◌};
ghost use Rattle.pungi_types.specs.Calls.{made_wrong, made_kind};
ghost use Rattle.pungi_types.specs.Kinds.{struct_only};

use crate::ValueKind;
use crate::operator::fits;

/// The kind of a pointer, where it is one to an object struct.
pub fn struct_only(kind: Option<ValueKind>) -> Option<ValueKind>
    ensures { result ≡ struct_only kind }
{
    match kind {
        Some(ValueKind::Object(Some(_))) => kind,
        _ => None,
    }
}

/// Whether `PyObject_New` may not make what this kind points to, or its argument, of this kind, is no object.
pub fn made_wrong(to: Option<ValueKind>, kind: Option<ValueKind>) -> bool
    ensures { result ≡ made_wrong to kind }
{
    to.is_none() || !(kind.is_none() || fits(Some(ValueKind::Object(None)), kind))
}

/// The kind of what it makes.
pub fn made_kind(to: Option<ValueKind>, kind: Option<ValueKind>) -> Option<ValueKind>
    ensures { result ≡ made_kind to kind }
{
    if made_wrong(to, kind) { None } else { to }
}
