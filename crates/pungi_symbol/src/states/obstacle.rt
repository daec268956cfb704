/// Why a path isn't followed to its end.
#[derive(Clone, Copy)]
pub enum Obstacle {
    /// The next instruction computes a number that no token and constant add up to.
    Number,
    /// A loop's head would be reached a third time, or the path has 16,384 instructions.
    Loop,
}
