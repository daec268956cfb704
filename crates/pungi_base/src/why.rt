use crate::{Name, Pos, Seq};

/// Why a function is neither clean nor faulty.
#[derive(Drop)]
pub enum Why {
    /// It has too many short traces.
    Traces,
    /// Its affine program is too large.
    Shapes,
    /// A relation between its numbers has too large factors: the place, and the relation.
    Range { pos: Pos, vector: Seq<i64> },
    /// It returns unbalanced if its computed numbers may be any. Such a path first compares or computes one here.
    Number { pos: Pos },
    /// A loop at this place may turn more often than was explored.
    Loop { pos: Pos },
    /// A call at this place of this function may go deeper than was explored.
    Call { pos: Pos, name: Name },
}
