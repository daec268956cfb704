ghost use Rattle.std.specs.Prelude.{◌≡◌};
ghost use Rattle.pungi_summary.specs.Outcomes.{is_large, is_open, is_shapes, is_unsafe};

use crate::failing::Failing;
use pungi_base::Seq;

/// What became of a function so far.
#[derive(Drop)]
pub(crate) enum Outcome {
    /// It reaches a function without a program.
    Shapes,
    /// It has no annotation yet.
    Waiting,
    /// It has one, and these are the duties that fail.
    Annotated(Failing),
    /// A step from this place was large. Holds a scaled row of the large span, divided by the common divisor of its
    /// entries.
    Large(u32, Seq<i128>),
}

impl Outcome {
    /// Whether it may still change.
    pub(crate) fn is_open(&self) -> bool
        ensures { result ≡ is_open self.now }
    {
        match self {
            Outcome::Waiting | Outcome::Annotated(_) => true,
            Outcome::Shapes | Outcome::Large(_, _) => false,
        }
    }

    /// Whether it reaches a function without a program.
    pub(crate) fn is_shapes(&self) -> bool
        ensures { result ≡ is_shapes self.now }
    {
        matches!(self, Outcome::Shapes)
    }

    /// Whether a step was large.
    pub(crate) fn is_large(&self) -> bool
        ensures { result ≡ is_large self.now }
    {
        matches!(self, Outcome::Large(_, _))
    }

    /// Whether a duty of an edge to a place fails.
    pub(crate) fn is_unsafe(&self) -> bool
        ensures { result ≡ is_unsafe self.now }
    {
        match self {
            Outcome::Annotated(failing) => failing.places.is_some(),
            Outcome::Shapes | Outcome::Waiting | Outcome::Large(_, _) => false,
        }
    }
}
