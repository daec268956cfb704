use crate::{Instr, Label};
use pungi_api::{Param, Terms};
use pungi_base::{Name, Pos, Seq};

/// An instruction, and the place in the text of the node that it does.
#[derive(Drop)]
pub struct Line {
    pub pos: Pos,
    pub instr: Instr,
}

/// A loop's head: the label of its test, or the target of a backward jump; and the place in the text by which it is
/// reported, that of a loop or of a label in front of a statement.
#[derive(Clone, Copy)]
pub struct Head {
    pub label: Label,
    pub pos: Pos,
}

/// The code of a function.
#[derive(Drop)]
pub struct Code {
    pub instrs: Seq<Line>,
    /// What each variable holds. The parameters come first, then the other locals, then what is temporary.
    pub vars: Seq<Param>,
    pub params: u32,
    /// How many locals there are, parameters counted.
    pub locals: u32,
    /// The kind of what it returns, if it returns anything.
    pub result: Option<Param>,
    /// In the order of their labels, each once.
    pub heads: Seq<Head>,
    /// The terms under which what it returns is judged.
    pub terms: Terms,
}

/// The codes of a file's functions.
#[derive(Drop)]
pub struct Codes {
    /// No code for a function that is refused.
    pub codes: Seq<Option<Code>>,
    /// How many static objects the file has, with the built-in ones.
    pub statics: u32,
    /// The names of the functions, in the order of the file.
    pub names: Seq<Name>,
}
