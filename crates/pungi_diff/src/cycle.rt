/// A constraint was refused: it, alone or with some that are held, goes round with a sum below 0.
#[derive(Clone, Copy, Debug, PartialEq, Eq)]
pub struct Cycle;
