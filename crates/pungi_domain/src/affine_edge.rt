use crate::{Action, Equation, Target};
use pungi_base::Seq;

/// A step of an affine program.
#[derive(Drop)]
pub struct AffineEdge {
    /// The place that it leaves.
    pub from: u32,
    pub to: Target,
    /// What a vector meets that takes the edge.
    pub guard: Seq<Equation>,
    pub action: Action,
    /// What each vector that takes the edge has to meet.
    pub duties: Seq<Equation>,
}
