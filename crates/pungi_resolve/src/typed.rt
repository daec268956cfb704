ghost use Rattle.std.specs.Prelude.{◌≡◌, IfOk};
ghost use Rattle.pungi_resolve.specs.Nodes.{node_view};
ghost use Rattle.pungi_resolved.specs.ValueView.{boxed_view};

use pungi_api::Param;
use pungi_base::{Memory, Pos, Seq};
use pungi_resolved::{OutputStep, Place, Value, ValueNode};
use pungi_types::ValueKind;
use std::alloc::Global;

/// A value, with the kind by which the rules know it.
#[derive(Drop)]
pub(crate) struct Typed {
    pub(crate) value: Box<Value>,
    pub(crate) kind: Option<ValueKind>,
}

impl Typed {
    /// A node at this place.
    pub(crate) fn new(
        alloc: Global,
        pos: Pos,
        node: ValueNode,
        kind: Option<ValueKind>,
    ) -> Result<Typed, Memory>
        ensures value { IfOk result (λ x. boxed_view x.value ≡ node_view node pos) }
        ensures kind { IfOk result (λ x. x.kind ≡ kind) }
    {
        let value = Box::new(alloc, Value { pos, node })?;
        Ok(Typed { value, kind })
    }
}

/// A place, with the kind of what it holds.
#[derive(Drop)]
pub(crate) struct TypedPlace {
    pub(crate) place: Place,
    pub(crate) kind: Option<ValueKind>,
}

/// An argument, what it is where any is taken, and whether it is what is wanted.
#[derive(Drop)]
pub(crate) struct Argument {
    pub(crate) value: Box<Value>,
    pub(crate) given: Param,
    pub(crate) met: bool,
}

/// Arguments, what they are where any are taken, what the call writes to others, and whether all are what is wanted.
#[derive(Drop)]
pub(crate) struct Arguments {
    pub(crate) values: Vec<Value>,
    pub(crate) given: Seq<Param>,
    pub(crate) outs: Seq<OutputStep>,
    pub(crate) met: bool,
}
