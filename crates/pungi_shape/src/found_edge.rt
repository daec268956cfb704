ghost use Rattle.std.specs.Prelude.{◌≡◌};
ghost use Rattle.pungi_shape.specs.FoundEdges.{IsClassNumber, found_change};

use crate::{Change, Form};
use pungi_base::Seq;

/// Where an edge leads: the number of a place or of an exit class, in the order in which they were found.
#[derive(Clone, Copy)]
pub(crate) enum FoundGoal {
    Place(u32),
    Exit(u32),
}

/// What an edge does to a vector, as a `Change`.
#[derive(Drop)]
pub(crate) enum FoundChange {
    ByMap(Seq<Form>),
    ByAny(u32),
    /// With the function that left, and the number of its exit class.
    ByExit(u32, u32, Seq<u32>),
}

impl FoundChange {
    /// What a change does, where a function left, if one did, by the exit class of this number.
    pub(crate) fn of(change: Change, class: u32) -> FoundChange
        ensures { (others : _) → IsClassNumber others change class → result ≡ found_change others change }
    {
        match change {
            Change::ByMap(rows) => FoundChange::ByMap(rows),
            Change::ByAny(coordinate) => FoundChange::ByAny(coordinate),
            Change::ByExit(f, _, onto) => FoundChange::ByExit(f, class, onto),
        }
    }
}

/// An edge of a place that was found.
pub(crate) struct FoundEdge {
    pub(crate) to: FoundGoal,
    /// The forms that are 0 for the vectors that take it.
    pub(crate) guard: Seq<Form>,
    pub(crate) change: FoundChange,
    /// The forms that have to be 0 for these.
    pub(crate) duties: Seq<Form>,
}

impl FoundEdge {
    /// What it does.
    pub(crate) fn into_change(self) -> FoundChange
        ensures { result ≡ self.change }
    {
        let FoundEdge {
            to: _,
            guard: _,
            change,
            duties: _,
        } = self;
        change
    }
}

impl Drop for FoundEdge {
    fn drop(self) {
        let FoundEdge {
            to: _,
            guard: _,
            change: _,
            duties: _,
        } = self;
    }
}
