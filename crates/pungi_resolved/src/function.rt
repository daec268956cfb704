use crate::Action;
use pungi_api::Terms;
use pungi_base::{Name, Pos, Seq};
use pungi_types::ValueKind;

/// A function in which no rule holds. The parameters are the first of its locals.
#[derive(Drop)]
pub struct Function {
    pub name: Name,
    pub pos: Pos,
    pub params: Seq<Option<ValueKind>>,
    /// How many locals it has, its parameters counted.
    pub locals: usize,
    pub result: Option<ValueKind>,
    /// The terms under which it is judged.
    pub terms: Terms,
    pub body: Action,
}
