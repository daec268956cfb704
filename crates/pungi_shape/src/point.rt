/// How far a run has come in a code.
#[derive(Clone, Copy)]
pub struct Point {
    /// The instruction, by its place in the list of instructions.
    pub instr: u32,
    /// How many of its parts are done.
    pub done: u32,
    /// Inside a call of the API the number of its outcome, and 0 elsewhere.
    pub class: u32,
}
