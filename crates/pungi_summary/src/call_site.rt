/// Where a function is called.
#[derive(Clone, Copy)]
pub(crate) struct CallSite {
    /// The function that calls it.
    pub(crate) caller: u32,
    /// The place of that function's program from which the first edge with such a call leads. Where no edge has one,
    /// its first entry; 0 where it has no program.
    pub(crate) place: u32,
}
