/// How a function reaches another one by calls.
#[derive(Clone, Copy)]
pub(crate) struct Way {
    /// The function that it reaches.
    pub(crate) origin: u32,
    /// The place of its call that does so; 0 for the function itself.
    pub(crate) place: u32,
}
