/// The numbers that a token may stand for.
#[derive(Clone, Copy)]
pub enum IntegerRange {
    /// Those of an `int`, which has 32 bits.
    Int,
    /// Those of a `long` or a `Py_ssize_t`, which have 64 bits.
    Long,
    /// The sizes that a call may return: up from -1, with which it fails.
    SizeOrError,
    /// 0 and 1.
    Flag,
}
