//! Greatest common divisors.
ghost use Rattle.std.specs.Prelude.{◌≡◌, ℕ, ◌<◌, ℤ, pos, ◌*ℤ◌, ◌<ℤ◌, length};
ghost use Rattle.pungi_domain.specs.Vectors.{at};
ghost use Rattle.pungi_domain.specs.Spans.{Divides};
ghost use Rattle.pungi_affine.specs.Divisors.{IsCommon, IsContent, IsDivisor};
ghost use Rattle.pungi_affine.specs.Parts.{IsLong};

/// The greatest common divisor of two numbers.
pub(crate) fn gcd(a: u128, b: u128) -> u128
    ensures { IsCommon a b result }
{
    let mut x = a;
    let mut y = b;
    while y != 0 {
        let rest = x % y;
        x = y;
        y = rest;
    }
    x
}

/// The greatest common divisor of the entries, and 0 where all are 0.
pub(crate) fn content(entries: &[i128]) -> u128
    ensures { IsContent entries.now result }
{
    let mut common = 0u128;
    for entry in entries {
        if common == 1 {
            return 1;
        }
        common = gcd(common, entry.unsigned_abs());
    }
    common
}

/// The greatest common divisor of entries of which one is above 0.
pub(crate) fn divisor(entries: &[i128], i: usize) -> i128
    requires within { i < length entries.now }
    requires entry { pos 0 <ℤ at entries.now i }
    requires long { IsLong (at entries.now i) }
    ensures positive { pos 0 <ℤ result }
    ensures divisor { IsDivisor entries.now result }
{
    content(entries) as i128
}

/// Each entry without the factor g.
pub(crate) fn take_out(entries: &mut [i128], g: i128)
    requires g { pos 0 <ℤ g }
    requires divides { (i : ℕ) → i < length entries.old → Divides g (at entries.old i) }
    ensures { (i : ℕ) → i < length entries.new → g *ℤ at entries.new i ≡ at entries.old i }
{
    if g == 1 {
        return;
    }
    for entry in entries.iter_mut() {
        *entry /= g;
    }
}
