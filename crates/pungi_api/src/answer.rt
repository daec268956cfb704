/// What an API call returns.
#[derive(Clone, Copy, Debug, PartialEq, Eq)]
pub enum Answer {
    /// A new reference, or `NULL`.
    New,
    /// A borrowed reference, or `NULL`.
    Borrowed,
    /// A borrowed reference, never `NULL`.
    BorrowedSure,
    /// 0, or -1 where the call fails.
    Status,
    /// 1 or 0, or -1 where the call fails.
    Truth,
    /// A size, or -1 where the call fails.
    Size,
    /// Any `int`.
    Int,
    /// Any `long`.
    Long,
    /// A text, or `NULL`.
    Text,
    /// Nothing.
    Void,
    /// Always `NULL`.
    Null,
    /// 1, or 0 where nothing is found.
    Found,
    /// How an argument parser ends: as many units as were converted where it succeeds, from `least` to `most`, or how
    /// many were before the one that failed, fewer than `failures`. A number of units is below 2³¹.
    Converted {
        failures: u32,
        least: u32,
        most: u32,
    },
    /// Any `Py_ssize_t`.
    AnySize,
    /// 0 or 1, as an `int`.
    Flag,
    /// A text, never `NULL`.
    TextSure,
    /// A new reference to an object that the call makes, or `NULL`.
    Made,
}
