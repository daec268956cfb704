ghost use Rattle.std.specs.Prelude.{◌↔◌, IsTrue};
ghost use Rattle.pungi_fixpoint.specs.Duties.{IsOfKind};

use pungi_domain::Target;

/// Which duties are looked at.
#[derive(Clone, Copy)]
pub enum DutyKind {
    /// Those of edges to places: a function is to meet them wherever it is called.
    OfPlaces,
    /// Those of edges to exit classes.
    OfExits,
}

impl DutyKind {
    /// Whether the duties of edges to this target are.
    pub(crate) fn includes(self, to: Target) -> bool
        ensures { IsTrue result ↔ IsOfKind self to }
    {
        match to {
            Target::Place(_) => matches!(self, DutyKind::OfPlaces),
            Target::Exit(_) => matches!(self, DutyKind::OfExits),
        }
    }
}
