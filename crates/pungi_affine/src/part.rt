//! Vectors without the common divisor of their entries.
ghost use Rattle.std.specs.Prelude.{◌≡◌, ℕ, ◌<◌, ◌≤◌, ℤ, pos, neg_ℤ, ◌<ℤ◌, length, true, false, IfOk};
ghost use Rattle.pungi_domain.specs.Vectors.{at};
ghost use Rattle.pungi_domain.specs.Spans.{IsOutside};
ghost use Rattle.pungi_affine.specs.Forms.{WithinBox};
ghost use Rattle.pungi_affine.specs.Parts.{IsLong, AreLong, IsPart, IsPartOf};

use crate::divisor::{divisor, take_out};
use std::alloc::{AllocError, Global};

/// A row whose entries may be over 2^31, with its pivot.
#[derive(Drop)]
pub(crate) struct WideRow {
    pub(crate) pivot: u32,
    pub(crate) entries: Vec<i128>,
}

/// Where the first entry other than 0 stands.
pub(crate) fn first_entry(entries: &[i128]) -> usize
    ensures within { result ≤ length entries.now }
    ensures before { (i : ℕ) → i < result → at entries.now i ≡ pos 0 }
    ensures entry { result < length entries.now → at entries.now result ≡ pos 0 → ⊥ }
{
    for i in 0..entries.len() {
        if entries[i] != 0 {
            return i;
        }
    }
    entries.len()
}

/// Turns each sign.
pub(crate) fn negate(entries: &mut [i128])
    requires { AreLong entries.old }
    ensures { (i : ℕ) → i < length entries.new → at entries.new i ≡ neg_ℤ (at entries.old i) }
{
    for entry in entries.iter_mut() {
        *entry = -*entry;
    }
}

/// Takes out the common divisor of the entries. The one at q is above 0 then.
fn reduce(entries: &mut [i128], q: usize)
    requires long { AreLong entries.old }
    requires within { q < length entries.old }
    requires entry { at entries.old q ≡ pos 0 → ⊥ }
    ensures { IsPart entries.old q entries.new }
{
    if entries[q] < 0 {
        negate(entries);
    }
    let g = divisor(entries, q);
    take_out(entries, g);
}

/// The entries without their common divisor. The one at q is above 0.
pub(crate) fn part_at(entries: Vec<i128>, q: usize) -> Vec<i128>
    requires long { AreLong entries.items }
    requires within { q < length entries.items }
    requires entry { at entries.items q ≡ pos 0 → ⊥ }
    ensures { IsPart entries.items q result.items }
{
    let mut entries = entries;
    reduce(entries.as_mut_slice(), q);
    entries
}

/// The vector without the common divisor of its entries, the first of which other than 0 is above 0. None where all are
/// 0.
pub(crate) fn part_of(alloc: Global, vector: &[i128]) -> Result<Option<WideRow>, AllocError>
    requires narrow { length vector.now ≤ 256 }
    requires long { AreLong vector.now }
    ensures { IfOk result (λ o. IsPartOf vector.now o) }
{
    let q = first_entry(vector);
    if q == vector.len() {
        return Ok(None);
    }
    let entries = Vec::from_slice(alloc, vector)?;
    Ok(Some(WideRow {
        pivot: q as u32,
        entries: part_at(entries, q),
    }))
}

/// Whether an entry is over 2^31 in absolute value.
pub(crate) fn has_large(entries: &[i128]) -> bool
    ensures yes { result ≡ true → (i : ℕ) × (i < length entries.now) × IsOutside (at entries.now i) }
    ensures no { result ≡ false → WithinBox entries.now }
{
    for i in 0..entries.len() {
        if entries[i] > 2147483648 || entries[i] < -2147483648 {
            return true;
        }
    }
    false
}
