/// The first places from which edges with duties that fail lead.
#[derive(Clone, Copy)]
pub(crate) struct Failing {
    /// An edge to a place.
    pub(crate) places: Option<u32>,
    /// An edge to an exit class.
    pub(crate) exits: Option<u32>,
}
