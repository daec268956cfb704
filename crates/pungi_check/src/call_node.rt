use pungi_types::Finding;

/// What the call graph holds of a defined function. Functions have numbers, in the order of their definitions.
#[derive(Drop)]
pub(crate) struct CallNode {
    /// The finding of the function where no other one is refused.
    pub(crate) alone: Option<Finding>,
    /// The functions that it calls. One may stand there more than once.
    pub(crate) callees: Vec<usize>,
}
