use crate::AffineEdge;
use pungi_base::{Pos, Seq};

/// A control-flow graph whose states are vectors of whole numbers.
#[derive(Drop)]
pub struct AffineProgram {
    /// How many coordinates the vectors of each place have.
    pub widths: Seq<u32>,
    /// Where each place stands in the source text.
    pub at: Seq<Pos>,
    /// How many coordinates the vectors of each exit class have.
    pub exits: Seq<u32>,
    pub edges: Seq<AffineEdge>,
    /// The places at which every vector stands at first.
    pub entries: Seq<u32>,
}
