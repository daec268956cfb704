use crate::{Point, Shape};

/// A place of an affine program, as the code and its shapes make it.
pub enum Place {
    /// At an entry, before the first instruction.
    AtEntry(Shape),
    AtPoint(Point, Shape),
    /// Where a called function has left by an exit: the caller's shape, and the exit class.
    AfterCall(Point, Shape, Shape),
}

impl Drop for Place {
    fn drop(self) {
        match self {
            Place::AtEntry(_) => {}
            Place::AtPoint(_, _) => {}
            Place::AfterCall(_, _, _) => {}
        }
    }
}
