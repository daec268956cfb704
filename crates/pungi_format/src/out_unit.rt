/// What a unit of a format puts into the value that is built.
#[derive(Clone, Copy, Debug, PartialEq, Eq)]
pub enum OutUnit {
    /// `O`, `S`: an object, with a reference of its own.
    Keep,
    /// `N`: an object, with the caller's reference.
    Take,
    /// `i`: an `int`.
    Int,
    /// `l`: a `long`.
    Long,
    /// `n`: a `Py_ssize_t`.
    Size,
    /// `s`, `z`: a text or `NULL`.
    TextOrNull,
}
