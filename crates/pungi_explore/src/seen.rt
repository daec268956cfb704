// The first places at which paths aren't followed.
ghost use Rattle.std.specs.Prelude.{◌≡◌, Some};
ghost use Rattle.pungi_explore.specs.Visits.{seen_with, shown};

use crate::explored::Explored;
use pungi_base::Pos;
use pungi_symbol::{Obstacle, earliest};

/// The first places in the text at which paths aren't followed, for a number and for a loop.
#[derive(Clone, Copy)]
pub struct Seen {
    pub number: Option<Pos>,
    pub cut: Option<Pos>,
}

/// One more place at which a path isn't followed.
pub fn seen_with(seen: Seen, obstacle: Obstacle, pos: Pos) -> Seen
    ensures { result ≡ seen_with seen obstacle pos }
{
    match obstacle {
        Obstacle::Number => Seen {
            number: Some(earliest(seen.number, pos)),
            cut: seen.cut,
        },
        Obstacle::Loop => Seen {
            number: seen.number,
            cut: Some(earliest(seen.cut, pos)),
        },
    }
}

/// What is found where no state is pending.
pub fn shown(seen: Seen) -> Explored
    ensures { result ≡ shown seen }
{
    match seen.number {
        Some(pos) => Explored::NumberSeen(pos),
        None => match seen.cut {
            Some(pos) => Explored::Cut(pos),
            None => Explored::AllBalanced,
        },
    }
}
