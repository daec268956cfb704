use crate::states::node::Node;

/// A bound that is known: the number at the node `x` is at most `c` more than that at the node `y`.
#[derive(Clone, Copy)]
pub struct Limit {
    pub x: Node,
    pub y: Node,
    pub c: i128,
}
