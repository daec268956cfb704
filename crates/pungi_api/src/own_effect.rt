/// What a call does in place of what its answer and the arguments that it takes over say.
#[derive(Clone, Copy)]
pub enum OwnEffect {
    /// The reference count of the first argument rises by one.
    IncRef,
    /// It falls by one.
    DecRef,
}
