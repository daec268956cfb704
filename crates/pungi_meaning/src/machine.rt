use crate::counted_world::CountedWorld;
use crate::task::Task;
use pungi_base::{Pos, Value};
use pungi_world::Content;

/// Why a step doesn't simply go on.
#[derive(Clone, Copy)]
pub enum Ending {
    /// A function of the file is called: the place of the call, the function's number, whether the call has a value,
    /// and how many of the newest values are its arguments.
    Call(Pos, usize, bool, usize),
    Leave(Pos, Option<Value>),
    Stop(Pos),
    Want,
}

/// The function that runs. What is to be done next stands last in its list, and so does the newest value.
#[derive(Drop)]
pub struct Machine<'a> {
    pub world: CountedWorld,
    pub used: Vec<Pos>,
    pub locals: Vec<Content>,
    pub values: Vec<Value>,
    pub tasks: Vec<Task<'a>>,
}

/// A function that waits for the one that it called.
#[derive(Drop)]
pub struct Waiting<'a> {
    /// The place of the call.
    pub call: Pos,
    pub has_value: bool,
    pub locals: Vec<Content>,
    pub values: Vec<Value>,
    pub tasks: Vec<Task<'a>>,
}
