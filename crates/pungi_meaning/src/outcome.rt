use pungi_base::{Pos, Value};
use pungi_world::World;

/// How the run of a function ends.
#[derive(Drop)]
pub enum Outcome {
    /// It returns: the world then, the value where there is one, where it returned, and the place of each choice that
    /// was used, in order.
    Returned {
        world: World,
        value: Option<Value>,
        pos: Pos,
        used: Vec<Pos>,
    },
    /// It goes no further at this place: an overflow, a division by 0, an unset variable, or `NULL` where it may not
    /// be.
    Stopped(Pos),
    /// The next choice is missing, or isn't accepted.
    NeedsChoice,
    /// All steps were made, and none ended the run.
    OutOfFuel,
}
