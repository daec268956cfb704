// Bounds that no numbers meet together, as far as two of them show it.
ghost use Rattle.std.specs.Prelude.{◌≡◌, ◌+ℤ◌, ◌<ℤ◌, pos, true};
ghost use Rattle.pungi_symbol.specs.states.Terms.{Table};
ghost use Rattle.pungi_symbol.specs.runs.Fits.{AreMet, IsMet};

use crate::states::limit::Limit;
use crate::states::node::is_same_node;

/// Whether the sum of two numbers is below 0, as far as it has 128 bits.
fn is_below_zero(a: i128, b: i128) -> bool
    ensures { result ≡ true → (a +ℤ b) <ℤ pos 0 }
{
    match a.checked_add(b) {
        Some(sum) => sum < 0,
        None => false,
    }
}

/// Whether no numbers meet two bounds: each is of the same nodes the other way round, and together they go below 0.
fn are_opposed(a: Limit, b: Limit) -> bool
    ensures { result ≡ true → (table : Table) → IsMet table a → IsMet table b → ⊥ }
{
    if !is_same_node(a.x, b.y) {
        return false;
    }
    if !is_same_node(a.y, b.x) {
        return false;
    }
    is_below_zero(a.c, b.c)
}

/// Whether no numbers meet this bound and one of the others.
fn is_opposed(limits: &[Limit], limit: Limit) -> bool
    ensures { result ≡ true → (table : Table) → AreMet table limits.now → IsMet table limit → ⊥ }
{
    for other in limits {
        if are_opposed(*other, limit) {
            return true;
        }
    }
    false
}

/// Whether no numbers meet one of these bounds and another one.
fn is_one_opposed(limits: &[Limit], i: usize) -> bool
    ensures { result ≡ true → (table : Table) → AreMet table limits.now → ⊥ }
{
    if i >= limits.len() {
        return false;
    }
    is_opposed(limits, limits[i])
}

/// Whether no numbers meet one of the last two bounds, which the last answer may have added, and another one.
pub fn are_last_opposed(limits: &[Limit]) -> bool
    ensures { result ≡ true → (table : Table) → AreMet table limits.now → ⊥ }
{
    let count = limits.len();
    if count < 2 {
        return false;
    }
    if is_one_opposed(limits, count - 1) {
        return true;
    }
    is_one_opposed(limits, count - 2)
}
