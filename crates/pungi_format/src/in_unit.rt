/// What a unit of a format takes out of the arguments, and into what.
#[derive(Clone, Copy, Debug, PartialEq, Eq)]
pub enum InUnit {
    /// `O`, `S`, `U`: an object, borrowed.
    Object,
    /// `O!`: an object of a type that stands before it, borrowed.
    ObjectOf,
    /// `i`: an `int`.
    Int,
    /// `l`: a `long`.
    Long,
    /// `n`: a `Py_ssize_t`.
    Size,
    /// `p`: 0 or 1, into an `int`.
    Truth,
    /// `s`: a text.
    Text,
    /// `z`: a text or `NULL`.
    TextOrNull,
}
