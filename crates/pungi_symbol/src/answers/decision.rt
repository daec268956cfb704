use std::cmp::Ordering;

/// An answer of a trace, or none: where an instruction's work is done and nothing was asked.
#[derive(Clone, Copy, PartialEq, Eq)]
pub enum Decision {
    /// Nothing was asked.
    Quiet,
    /// The answer to a question by its number, from 0. `NULL` comes first; below, within and above a range stand in
    /// this order; the numbers that a call may answer stand in the order of the manual's table.
    Outcome(u32),
    /// How two numbers compare.
    Order(Ordering),
    /// Whether two pointers are the same object.
    Same(bool),
}
