/// Where an edge leads to.
#[derive(Clone, Copy)]
pub enum Target {
    /// A place of the program, by number.
    Place(u32),
    /// An exit class of the program, by number.
    Exit(u32),
}
