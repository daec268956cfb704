//! Conversions between integer kinds (C11 6.3.1.3).
ghost use Rattle.std.specs.Prelude.{◌≡◌, IfOk};
ghost use Rattle.pungi_resolve.specs.Exprs.{convert_some, convert as convert_of};
ghost use Rattle.pungi_resolved.specs.ValueView.{boxed_view};

use pungi_base::{Memory, Pos};
use pungi_resolved::{Value, ValueNode};
use pungi_types::ValueKind;
use pungi_types::operator::{is_integer, is_same_kind};
use std::alloc::Global;

type Known = Option<ValueKind>;

/// A value as one of this kind, if there is one.
pub(crate) fn convert_some(
    alloc: Global,
    pos: Pos,
    to: Known,
    v: Box<Value>,
) -> Result<Box<Value>, Memory>
    ensures { IfOk result (λ x. boxed_view x ≡ convert_some pos to (boxed_view v)) }
{
    match to {
        None => Ok(v),
        Some(kind) => {
            let node = ValueNode::Converted(kind, v);
            Ok(Box::new(alloc, Value { pos, node })?)
        }
    }
}

/// A value of the second kind as one of the first. It is written out only between two integer kinds that differ.
pub(crate) fn convert(
    alloc: Global,
    pos: Pos,
    to: Known,
    from: Known,
    v: Box<Value>,
) -> Result<Box<Value>, Memory>
    ensures { IfOk result (λ x. boxed_view x ≡ convert_of pos to from (boxed_view v)) }
{
    if is_integer(to) && (is_integer(from) && !is_same_kind(to, from)) {
        convert_some(alloc, pos, to, v)
    } else {
        Ok(v)
    }
}
