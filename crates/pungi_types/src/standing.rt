/// What a word is where it stands as a value.
#[derive(Clone, Copy)]
pub enum Standing {
    /// A local, by its number.
    Local(usize),
    /// A global of a kind.
    Global,
    /// A static object, by its number.
    Static(u32),
    /// A function, or what has no value.
    Other,
}
