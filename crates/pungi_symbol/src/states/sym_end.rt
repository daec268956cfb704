use crate::states::obstacle::Obstacle;
use pungi_base::Pos;

/// How a symbolic state ends.
#[derive(Clone, Copy)]
pub enum SymEnd {
    /// It has next states.
    Going,
    /// The function returned at this place.
    Returned(Pos),
    /// The run stopped at this place.
    Stopped(Pos),
    /// The run goes on, but its path isn't followed. The place is that of the number, or that by which the loop is
    /// reported.
    Blocked(Obstacle, Pos),
}
