use crate::Matrix;
use pungi_base::Seq;

/// What an edge does to a vector that meets its guard.
#[derive(Drop)]
pub enum Action {
    /// The vector's image.
    Map(Matrix),
    /// Any number at this coordinate, which is not 0.
    Free(u32),
    /// Beside the vector, one that a called function left at an exit.
    Call {
        /// The called function.
        callee: u32,
        /// The exit, among those of the called function's program.
        class: u32,
        /// The target's coordinates that take those of the exit, in order.
        onto: Seq<u32>,
    },
}
