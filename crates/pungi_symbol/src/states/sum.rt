use crate::states::node::Node;

/// A number that came in or was computed, with a constant added.
#[derive(Clone, Copy)]
pub struct Sum {
    pub node: Node,
    pub plus: i128,
}
