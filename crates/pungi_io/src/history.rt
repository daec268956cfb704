ghost use Rattle.std.specs.Prelude.{◌≡◌, ℕ, List, [], ◌∷◌, ◌++◌};
ghost use Rattle.std.specs.Borrow.{ftrue};
ghost use Rattle.std.specs.List.{concat};

use std::marker::Model;

/// What was passed on so far, piece by piece. Clauses alone see it: it takes no memory, and its functions do nothing
/// when they run.
#[derive(Drop)]
pub struct History {
    /// The pieces, in order.
    pub ghost pieces: { List (List ℕ) },
}

impl Model for History {
    ghost also_owns = { λ _. ftrue };
}

impl History {
    /// A history without a piece.
    pub fn new() -> History
        ensures { result.pieces ≡ [] }
    {
        History {}
    }

    /// Adds a piece at the end.
    pub fn add(&mut self, _piece: &[u8])
        ensures { (self.new.pieces ≡ self.old.pieces ++ _piece.now ∷ [])
            × (concat self.new.pieces ≡ concat self.old.pieces ++ _piece.now) }
    {}
}
