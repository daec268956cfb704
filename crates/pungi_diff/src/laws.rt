ghost use Rattle.std.specs.Prelude.{◌++◌, ◌∷◌, []};
ghost use Rattle.pungi_diff.specs.Round.{GoesRound, HasNoSolution};

use crate::Constraint;

/// The law of rounds: where a constraint, alone or with some that are held, goes round with a sum below 0, no values
/// meet it and all that are held.
pub fn rounds_forbid_solutions(held: &[Constraint], new: &Constraint, round: &[Constraint])
    requires round { GoesRound held.now new.now round.now }
    ensures { HasNoSolution (held.now ++ new.now ∷ []) }
{}
