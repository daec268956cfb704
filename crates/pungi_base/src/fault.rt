use crate::{Pos, Seq, Witness};

/// A return that isn't balanced, with the run that leads to it.
#[derive(Drop)]
pub struct Fault {
    /// The place of the return.
    pub pos: Pos,
    /// The number of the lowest object whose change differs from its escapes.
    pub object: u32,
    /// By how much its reference count changed in the run.
    pub change: i64,
    /// How many references to it escaped.
    pub escaped: i64,
    /// The run.
    pub witness: Witness,
    /// The place of each choice of the witness, in order.
    pub used: Seq<Pos>,
}
