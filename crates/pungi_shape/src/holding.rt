/// What a holder of a shape holds. A holder is a variable, a parameter's value at entry, the name of a static object, a
/// slot, or the value that is being returned.
#[derive(Clone, Copy)]
pub enum Holding {
    /// It is no holder here: a temporary that isn't read any more, or no value that is returned.
    Dead,
    Unset,
    Null,
    /// A text that isn't `NULL`.
    Text,
    /// One of the numbers -1, 0 and 1.
    Known(i8),
    /// Another number, or one that isn't known.
    Number,
    /// An object, by the number of its token.
    Token(u32),
}
