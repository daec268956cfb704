/// `x - y <= c`, where `x` and `y` are the numbers of two nodes, the unknowns.
#[derive(Clone, Copy, Debug, PartialEq, Eq)]
pub struct Constraint {
    pub x: u32,
    pub y: u32,
    pub c: i128,
}

/// What stands where no constraint was written yet.
pub const NO_CONSTRAINT: Constraint = Constraint { x: 0, y: 0, c: 0 };
