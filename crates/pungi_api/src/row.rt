use crate::{Answer, Param, Special, Take};
use pungi_base::Seq;

/// How the effect of an API call is described.
#[derive(Clone, Copy, Debug, PartialEq, Eq)]
pub enum Form {
    /// By its parameters, what it takes over and its answer.
    Plain,
    /// By a rule of its own. Its parameters, and what it takes over, are left empty, and its answer is `Null`.
    Special(Special),
}

/// What the manual says of an API call: what it takes, which references it takes over, and what it returns
/// (Python/C API Reference Manual 3.11).
#[derive(Debug, Drop)]
pub struct Row {
    pub form: Form,
    pub params: Seq<Param>,
    /// One for each parameter of a plain row.
    pub takes: Seq<Take>,
    pub answer: Answer,
}
