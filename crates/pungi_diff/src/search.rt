//! The least lowering of values that meets one more constraint, by Dijkstra's algorithm: a lowered node lowers others
//! through the constraints on it, the node that falls most first.
ghost use Rattle.std.specs.Prelude.{◌≡◌, ℕ, ◌+◌, ◌<◌, ◌≤◌, ◌^◌, ℤ, pos, ◌+ℤ◌, ◌-ℤ◌, ◌≤ℤ◌, neg_ℤ, [], ◌∷◌, length};
ghost use Rattle.std.specs.Prelude.{slice_index, slice_set, All, MatchOption, vec_capacity};
ghost use Rattle.pungi_diff.specs.Constraint.{at, InRange, IsSmall, IsStep, Small, Solves};
ghost use Rattle.pungi_diff.specs.Search.{Ends, Fringe, IsDone, IsLeastIn, Lowers, NoneIn, Reaches, Relaxes, Searching};
ghost use Rattle.pungi_diff.specs.Search.{lowered, want};

use crate::Constraint;
use crate::held::Held;

/// The place in the fringe of the open node whose gap is least, if that is below 0.
fn least(gap: &[i128], rank: &[u32], fringe: &[u32]) -> Option<usize>
    requires within { All (λ u. u < length gap.now) fringe.now }
    requires ranks { length rank.now ≡ length gap.now }
    ensures { MatchOption result (NoneIn gap.now rank.now fringe.now) (IsLeastIn gap.now rank.now fringe.now) }
{
    let mut best: Option<usize> = None;
    let mut bound = 0i128;
    for (place, node) in fringe.iter().enumerate() {
        let node = *node as usize;
        if gap[node] < bound && rank[node] as usize >= rank.len() {
            best = Some(place);
            bound = gap[node];
        }
    }
    best
}

/// What a constraint requires of its node x, above x's value.
fn want(value: &[i128], gap: &[i128], from: usize, k: &Constraint) -> i128
    requires within { (from < length value.now) × (from < length gap.now) × (k.now.x < length value.now) }
    requires value { IsSmall (at value.now from) }
    requires gap { (at gap.now from ≤ℤ pos 0) × (neg_ℤ (pos (2 ^ 84)) ≤ℤ at gap.now from) }
    requires c { IsStep k.now }
    requires other { IsSmall (at value.now k.now.x) }
    ensures { result ≡ want value.now gap.now from k.now }
{
    value[from] + gap[from] + k.c - value[k.x as usize]
}

/// Lowers the gap of the constraint's node x, where that is more than what is wanted.
fn lower(value: &[i128], gap: &mut [i128], via: &mut [Constraint], from: usize, k: &Constraint)
    requires within { (from < length value.now) × (from < length gap.old) × (k.now.x < length value.now)
        × (k.now.x < length gap.old) × (k.now.x < length via.old) }
    requires value { IsSmall (at value.now from) }
    requires gap { (at gap.old from ≤ℤ pos 0) × (neg_ℤ (pos (2 ^ 84)) ≤ℤ at gap.old from) }
    requires c { IsStep k.now }
    requires other { IsSmall (at value.now k.now.x) }
    ensures { Lowers gap.old via.old k.now (want value.now gap.old from k.now) gap.new via.new }
{
    let next = want(value, gap, from, k);
    let x = k.x as usize;
    if next < gap[x] {
        gap[x] = next;
        via[x] = *k;
    }
}

/// Lowers the constraint's node x as far as the constraint, on the node `from`, requires it, if x is open. Where its
/// gap falls below 0, x comes into the fringe.
fn reach(
    value: &[i128],
    gap: &mut [i128],
    rank: &[u32],
    via: &mut [Constraint],
    fringe: &mut Vec<u32>,
    from: usize,
    k: &Constraint,
)
    requires within { (from < length value.now) × (from < length gap.old) × (k.now.x < length value.now)
        × (k.now.x < length gap.old) × (k.now.x < length via.old) }
    requires value { IsSmall (at value.now from) }
    requires gap { (at gap.old from ≤ℤ pos 0) × (neg_ℤ (pos (2 ^ 84)) ≤ℤ at gap.old from) }
    requires c { IsStep k.now }
    requires other { IsSmall (at value.now k.now.x) }
    requires ranks { length rank.now ≡ length gap.old }
    requires fringe { Fringe gap.old rank.now fringe.old.items }
    requires room { length gap.old ≤ vec_capacity fringe.old }
    ensures reaches { Reaches gap.old rank.now via.old k.now (want value.now gap.old from k.now) gap.new via.new }
    ensures fringe { Fringe gap.new rank.now fringe.new.items }
    ensures room { vec_capacity fringe.new ≡ vec_capacity fringe.old }
{
    let x = k.x as usize;
    if (rank[x] as usize) < rank.len() {
        return;
    }
    let was_idle = gap[x] >= 0;
    lower(value, gap, via, from, k);
    if was_idle && gap[x] < 0 {
        fringe.push_reserved(k.x);
    }
}

/// Lowers each open node as far as a constraint on the node `from`, which is done, requires it.
fn relax(
    held: &Held,
    value: &[i128],
    gap: &mut [i128],
    rank: &[u32],
    via: &mut [Constraint],
    fringe: &mut Vec<u32>,
    from: usize,
)
    requires nodes { held.now.nodes ≡ length value.now }
    requires gaps { length gap.old ≡ length value.now }
    requires ranks { length rank.now ≡ length value.now }
    requires vias { length via.old ≡ length value.now }
    requires range { InRange (length value.now) held.now.list }
    requires done { IsDone rank.now from }
    requires from { from < length value.now }
    requires small { Small value.now gap.old held.now.list }
    requires solved { Solves (at value.now) held.now.list }
    requires fringe { Fringe gap.old rank.now fringe.old.items }
    requires room { length value.now ≤ vec_capacity fringe.old }
    ensures relaxes { Relaxes held.now.list value.now rank.now gap.old via.old gap.new via.new from }
    ensures small { Small value.now gap.new held.now.list }
    ensures fringe { Fringe gap.new rank.now fringe.new.items }
    ensures room { vec_capacity fringe.new ≡ vec_capacity fringe.old }
{
    let mut link = held.latest(from);
    while let Some(number) = link {
        reach(value, gap, rank, via, fringe, from, held.get(number));
        link = held.earlier(number);
    }
}

/// The node at a place of the fringe is done, and the constraints on it are relaxed.
fn settle(
    held: &Held,
    value: &[i128],
    gap: &mut [i128],
    rank: &mut [u32],
    via: &mut [Constraint],
    fringe: &mut Vec<u32>,
    place: usize,
    turn: u32,
)
    requires nodes { held.now.nodes ≡ length value.now }
    requires gaps { length gap.old ≡ length value.now }
    requires ranks { length rank.old ≡ length value.now }
    requires vias { length via.old ≡ length value.now }
    requires range { InRange (length value.now) held.now.list }
    requires turn { turn < length value.now }
    requires least { IsLeastIn gap.old rank.old fringe.old.items place }
    requires small { Small value.now gap.old held.now.list }
    requires solved { Solves (at value.now) held.now.list }
    requires fringe { Fringe gap.old rank.old fringe.old.items }
    requires room { length value.now ≤ vec_capacity fringe.old }
    ensures rank { rank.new ≡ slice_set rank.old (slice_index fringe.old.items place) turn }
    ensures relaxes { Relaxes held.now.list value.now rank.new gap.old via.old gap.new via.new
        (slice_index fringe.old.items place) }
    ensures small { Small value.now gap.new held.now.list }
    ensures fringe { Fringe gap.new rank.new fringe.new.items }
    ensures room { vec_capacity fringe.new ≡ vec_capacity fringe.old }
{
    let from = fringe.swap_remove(place) as usize;
    rank[from] = turn;
    relax(held, value, gap, rank, via, fringe, from);
}

/// Whether the lowered values meet all constraints and the new one. If not, the new one goes round.
pub fn search(
    held: &Held,
    value: &[i128],
    gap: &mut [i128],
    rank: &mut [u32],
    via: &mut [Constraint],
    fringe: &mut Vec<u32>,
    new: &Constraint,
) -> bool
    requires nodes { held.now.nodes ≡ length value.now }
    requires searching { Searching held.now.list value.now rank.old gap.old via.old new.now 0 }
    requires solved { Solves (at value.now) held.now.list }
    requires range { InRange (length value.now) held.now.list }
    requires new_in { (new.now.x < length value.now) × (new.now.y < length value.now) }
    requires few { length value.now ≤ 65536 }
    requires fringe { Fringe gap.old rank.old fringe.old.items }
    requires room { length value.now ≤ vec_capacity fringe.old }
    ensures ends { Ends held.now.list value.now rank.new gap.new via.new new.now result }
    ensures room { vec_capacity fringe.new ≡ vec_capacity fringe.old }
{
    let y = new.y as usize;
    let mut turn = 0u32;
    while gap[y] >= 0 {
        let Some(place) = least(gap, rank, fringe.as_slice()) else {
            return true;
        };
        settle(held, value, gap, rank, via, fringe, place, turn);
        turn += 1;
    }
    false
}

fn clear_gaps(gap: &mut [i128])
    ensures { (u : ℕ) → u < length gap.new → at gap.new u ≡ pos 0 }
{
    for g in gap.iter_mut() {
        *g = 0;
    }
}

fn clear_ranks(rank: &mut [u32])
    ensures { (u : ℕ) → u < length rank.new → slice_index rank.new u ≡ 4294967295 }
{
    for r in rank.iter_mut() {
        *r = u32::MAX;
    }
}

/// All nodes are open, and only x is to be lowered.
pub fn begin(
    value: &[i128],
    gap: &mut [i128],
    rank: &mut [u32],
    fringe: &mut Vec<u32>,
    new: &Constraint,
)
    requires gaps { length gap.old ≡ length value.now }
    requires new_in { (new.now.x < length value.now) × (new.now.y < length value.now) }
    requires y_small { IsSmall (at value.now new.now.y) }
    requires x_small { IsSmall (at value.now new.now.x) }
    requires c { IsStep new.now }
    requires room { length value.now ≤ vec_capacity fringe.old }
    ensures zero { (u : ℕ) → u < length value.now → (u ≡ new.now.x → ⊥) → at gap.new u ≡ pos 0 }
    ensures first { at gap.new new.now.x ≡ (at value.now new.now.y +ℤ new.now.c) -ℤ at value.now new.now.x }
    ensures open_all { (u : ℕ) → u < length rank.new → slice_index rank.new u ≡ 4294967295 }
    ensures fringe { fringe.new.items ≡ new.now.x ∷ [] }
    ensures room { vec_capacity fringe.new ≡ vec_capacity fringe.old }
{
    clear_gaps(gap);
    clear_ranks(rank);
    gap[new.x as usize] = value[new.y as usize] + new.c - value[new.x as usize];
    fringe.clear();
    fringe.push_reserved(new.x);
}

/// The values, each lowered by its gap.
pub fn apply(value: &mut [i128], gap: &[i128])
    requires gaps { length gap.now ≡ length value.old }
    requires small { (u : ℕ) → u < length value.old
        → IsSmall (at value.old u) × (at gap.now u ≤ℤ pos 0) × (neg_ℤ (pos (2 ^ 84)) ≤ℤ at gap.now u) }
    ensures { (u : ℕ) → u < length value.new → at value.new u ≡ lowered value.old gap.now u }
{
    for (i, v) in value.iter_mut().enumerate() {
        *v += gap[i];
    }
}
