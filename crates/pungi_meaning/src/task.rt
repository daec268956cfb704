use crate::{Cmp, Op};
use pungi_api::Signature;
use pungi_base::{Kind, Name, Pos, Value};
use pungi_resolved::{Action, CalledFunction, DeclaredLocal, OutputStep, Place, Value as Node};
use pungi_types::ValueKind;

/// A loop by its parts. A loop without a test goes on for ever.
#[derive(Clone, Copy)]
pub struct Turns<'a> {
    pub test: Option<&'a Node>,
    /// What it does after its body.
    pub increment: Option<&'a Node>,
    pub body: &'a Action,
}

/// What is called: the API, or a function of the file.
#[derive(Clone, Copy)]
pub enum Target<'a> {
    Row(&'a Signature),
    /// The API, where `NULL` is returned if an argument that is an object is `NULL`.
    UnlessNull(&'a Signature),
    /// The API, and these steps after it.
    WithOutputs(&'a Signature, &'a [OutputStep]),
    Defined(&'a CalledFunction),
}

/// A node that is to be done, or what remains of one.
#[derive(Clone, Copy)]
pub enum Task<'a> {
    Eval(&'a Node),
    Load(Pos, ValueKind, Name, Name),
    Old(ValueKind, &'a Place),
    Step(Pos, Op, ValueKind),
    Postfix(Pos, Kind, ValueKind, &'a Place),
    Empty(ValueKind, &'a Place),
    Yield(Value),
    Minus(Pos, ValueKind),
    Compute(Pos, Op, ValueKind),
    Fit(Pos, ValueKind),
    Compare(Pos, Cmp),
    Negate,
    Right(bool, &'a Node),
    Truth,
    Pick(&'a Node, &'a Node),
    Store(ValueKind, &'a Place),
    Args(Pos, Target<'a>, &'a [Node], usize),
    Outputs(Pos, &'a [OutputStep]),
    Exec(&'a Action),
    Forget,
    Declare(&'a [DeclaredLocal]),
    Bind(usize),
    Choose(&'a Action, Option<&'a Action>),
    Rest(&'a [Action], usize),
    Test(Turns<'a>),
    Turn(Turns<'a>),
    Again(Turns<'a>),
    Switch(Pos, &'a Action),
    SwitchEnd,
    Return(Pos),
    End(Pos, bool),
}
