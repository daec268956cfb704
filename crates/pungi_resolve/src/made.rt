//! `PyObject_New` (Python/C API Reference Manual 3.11, 'Allocating Objects on the Heap').
ghost use Rattle.std.specs.Prelude.{◌≡◌, IfOk};
ghost use Rattle.pungi_resolve.specs.Exprs.{made_value};
ghost use Rattle.pungi_resolved.specs.ValueView.{boxed_view};

use crate::typed::Typed;
use pungi_api::{BoxedSignature, made_signature};
use pungi_base::words::PY_OBJECT_NEW;
use pungi_base::{Memory, Name, Pos};
use pungi_resolved::{Value, ValueNode};
use pungi_types::ValueKind;
use std::alloc::Global;

/// A call of `PyObject_New` with this argument, of which a pointer of this kind comes.
pub(crate) fn made(
    alloc: Global,
    pos: Pos,
    a: Box<Value>,
    kind: Option<ValueKind>,
) -> Result<Typed, Memory>
    ensures value { IfOk result (λ x. boxed_view x.value ≡ made_value pos (boxed_view a)) }
    ensures kind { IfOk result (λ x. x.kind ≡ kind) }
{
    let signature = BoxedSignature::new(alloc, made_signature(alloc)?)?;
    let mut args = Vec::new(alloc);
    args.push(Box::into_inner(a))?;
    Typed::new(
        alloc,
        pos,
        ValueNode::CalledRow(Name(PY_OBJECT_NEW), signature, args),
        kind,
    )
}
