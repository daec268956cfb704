ghost use Rattle.std.specs.Prelude.{◌≡◌};
ghost use Rattle.pungi_types.specs.WantsView.{wants_view, call_wants_view};

use crate::{Want, Wants};
use pungi_base::Seq;

/// What the arguments of a call are to be.
#[derive(Drop)]
pub enum CallWants<'a> {
    /// As whoever has the names lends it.
    Lent(Wants<'a>),
    /// As it was made of the call's own text.
    Made(Seq<Want>),
}

impl CallWants<'_> {
    /// The same, lent.
    pub fn wants(&self) -> Wants<'_>
        ensures { wants_view result ≡ call_wants_view self.now }
    {
        match self {
            CallWants::Lent(wants) => *wants,
            CallWants::Made(list) => Wants::listed(list.as_slice()),
        }
    }
}
