use crate::states::sum::Sum;
use pungi_meaning::Op;
use pungi_types::ValueKind;

/// An operator on two numbers that gives no sum: its result counts as any number of its kind, until a run of the state
/// is looked for.
#[derive(Clone, Copy)]
pub struct Computation {
    pub kind: ValueKind,
    pub op: Op,
    pub a: Sum,
    pub b: Sum,
}
