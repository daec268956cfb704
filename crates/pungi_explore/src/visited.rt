use pungi_base::{Pos, Witness};
use pungi_symbol::Obstacle;

/// What is seen at one state.
#[derive(Drop)]
pub enum Visited {
    /// It goes on, and its next states are pending.
    Goes,
    /// It ends one trace. Where it returned it is balanced.
    Ends,
    /// It ends one trace and leaves the verdict open, for this reason: its path isn't followed, or it returned
    /// unbalanced where a number on the path may be any number. The place is that by which it is reported.
    Open(Obstacle, Pos),
    /// It has ended, and no run is in it.
    Gone,
    /// It returned, and this run of it is unbalanced.
    Unbalanced(Witness),
}
