use pungi_base::{Pos, Witness};

/// What the runs of a function show.
#[derive(Drop)]
pub enum Explored {
    /// Each run that returns is balanced, none comes to a bound of a loop, and there are at most 16,384 traces.
    AllBalanced,
    /// This run returns unbalanced.
    Fault(Witness),
    /// A path returns unbalanced on which a number is computed that is no unknown number and a constant, and may be any
    /// number. The place is that of the first comparison of such a number on the path, or of the first one computed;
    /// of all such paths the first in the text. A path that isn't followed since it takes a pointer for a number is
    /// reported by that place. Each run that computes none, comes to no such place and no bound of a loop, and returns
    /// is balanced, and so is each run that returns and computes such numbers of no unknown number but 0.
    NumberSeen(Pos),
    /// A run comes to a bound of a loop: it reaches the head a third time, or has 16,384 instructions in a code with
    /// loops. The place is that of the loop, the first one of these in the text. No path with a number that may be any
    /// returns unbalanced, and neither does a run that computes none and comes to no such bound.
    Cut(Pos),
    /// There are more than 16,384 traces.
    TooMany,
}
