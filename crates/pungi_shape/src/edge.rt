ghost use Rattle.std.specs.Prelude.{◌≡◌};

use crate::{Form, Place, Shape};
use pungi_base::Seq;

/// Where an edge leads.
#[derive(Drop)]
pub enum Goal {
    ToPlace(Place),
    /// To the exit class of a shape.
    ToExit(Shape),
}

/// What an edge does to a vector.
#[derive(Drop)]
pub enum Change {
    /// It maps it to the coordinates that have these forms.
    ByMap(Seq<Form>),
    /// It puts any number at a coordinate.
    ByAny(u32),
    /// It puts a vector beside it, onto these coordinates, with which a function left at an exit class.
    ByExit(u32, Shape, Seq<u32>),
}

/// An edge, before places and exit classes have numbers.
pub struct Edge {
    pub goal: Goal,
    /// The forms that are 0 for the vectors that take it.
    pub guard: Seq<Form>,
    pub change: Change,
    /// The forms that have to be 0 for these.
    pub duties: Seq<Form>,
}

impl Edge {
    /// Its parts.
    pub(crate) fn into_parts(self) -> (Goal, Seq<Form>, Change, Seq<Form>)
        ensures { result ≡ (self.goal, self.guard, self.change, self.duties) }
    {
        let Edge {
            goal,
            guard,
            change,
            duties,
        } = self;
        (goal, guard, change, duties)
    }
}

impl Drop for Edge {
    fn drop(self) {
        let Edge {
            goal: _,
            guard: _,
            change: _,
            duties: _,
        } = self;
    }
}
