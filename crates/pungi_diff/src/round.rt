//! The cycle that a search found.
ghost use Rattle.std.specs.Prelude.{◌≡◌, ◌<◌, length, vec_capacity};
ghost use Rattle.pungi_diff.specs.Round.{GoesRound};
ghost use Rattle.pungi_diff.specs.Search.{Cycles};

use crate::Constraint;

/// Writes the cycle, from the node y of the new constraint, which ends it.
pub fn trace(
    held: &[Constraint],
    value: &[i128],
    gap: &[i128],
    rank: &[u32],
    via: &[Constraint],
    new: &Constraint,
    round: &mut Vec<Constraint>,
)
    requires cycles { Cycles held.now value.now rank.now gap.now via.now new.now }
    requires new_in { (new.now.x < length value.now) × (new.now.y < length value.now) }
    requires room { length value.now < vec_capacity round.old }
    ensures round { GoesRound held.now new.now round.new.items }
    ensures room { vec_capacity round.new ≡ vec_capacity round.old }
{
    round.clear();
    let mut node = new.y;
    while node != new.x {
        let k = via[node as usize];
        round.push_reserved(k);
        node = k.y;
    }
    round.push_reserved(*new);
}
