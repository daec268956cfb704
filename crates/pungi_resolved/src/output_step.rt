use pungi_api::Answer;

/// What comes, one step after the other, once a call that writes variables has ended with a number (Python/C API
/// Reference Manual 3.11, 'Parsing arguments and building values').
#[derive(Clone, Copy)]
pub enum OutputStep {
    /// Where the number is this one, the call returns 1 or 0, and no further step is done.
    Ends(i64, bool),
    /// The local of this number gets such a value.
    Writes(usize, Answer),
}
