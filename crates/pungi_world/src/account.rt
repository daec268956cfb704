/// What a run did to the reference count of one object.
#[derive(Clone, Copy, Debug, PartialEq, Eq)]
pub struct Account {
    /// By how much the count changed.
    pub change: i64,
    /// How many references calls took over.
    pub handed: i64,
    /// Whether the object was made in this run.
    pub made: bool,
}
