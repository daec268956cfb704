//! The kept rows of a span, and sums of products of their entries.
ghost use Rattle.std.specs.Prelude.{◌≡◌, ℕ, ◌<◌, ◌≤◌, ◌^◌, ℤ, pos, ◌*ℤ◌, true, false, length, IfOk};
ghost use Rattle.pungi_domain.specs.Vectors.{at, dot, IsWithin};
ghost use Rattle.pungi_affine.specs.Forms.{line, lines, IsBox, WithinBox};
ghost use Rattle.pungi_affine.specs.Mixes.{IsNarrow, IsWide};
ghost use Rattle.pungi_affine.specs.Rows.{row_entries};

use std::alloc::{AllocError, Global};

/// A kept row, with its pivot: its entries from the coordinate `start` on, without the zeros before and after them.
#[derive(Drop)]
pub(crate) struct Row {
    pub(crate) pivot: u32,
    pub(crate) width: usize,
    pub(crate) start: usize,
    pub(crate) entries: Vec<i64>,
}

impl Row {
    /// How many entries there are.
    pub(crate) fn width(&self) -> usize
        ensures { result ≡ length (row_entries self.now) }
    {
        self.width
    }

    /// The entry at a coordinate.
    pub(crate) fn entry(&self, i: usize) -> i64
        requires { i < length (row_entries self.now) }
        ensures { result ≡ at (row_entries self.now) i }
    {
        if i < self.start || i - self.start >= self.entries.len() {
            return 0;
        }
        self.entries[i - self.start]
    }

    /// All entries.
    pub(crate) fn all_entries(&self, alloc: Global) -> Result<Vec<i64>, AllocError>
        ensures { IfOk result (λ v. v.items ≡ row_entries self.now) }
    {
        let mut entries = Vec::with_capacity(alloc, self.width)?;
        for i in 0..self.width {
            entries.push(self.entry(i))?;
        }
        Ok(entries)
    }
}

/// A coefficient times an entry.
pub(crate) fn product(a: i64, b: i64) -> i128
    requires { IsBox b }
    ensures value { result ≡ a *ℤ b }
    ensures within { IsWithin (2 ^ 94) result }
{
    i128::from(a) * i128::from(b)
}

/// A coefficient times the entry at its place.
fn term(row: &Row, coefficients: &[i64], i: usize) -> i128
    requires within { (i < length coefficients.now) × (i < length (row_entries row.now)) }
    requires small { IsBox (at (row_entries row.now) i) }
    ensures value { result ≡ at coefficients.now i *ℤ at (row_entries row.now) i }
    ensures within { IsWithin (2 ^ 94) result }
{
    product(coefficients[i], row.entry(i))
}

/// The coefficients times the entries, summed up.
pub(crate) fn dot_product(row: &Row, coefficients: &[i64]) -> i128
    requires width { length coefficients.now ≡ length (row_entries row.now) }
    requires narrow { length (row_entries row.now) ≤ 256 }
    requires small { WithinBox (row_entries row.now) }
    ensures value { result ≡ dot coefficients.now (at (row_entries row.now)) }
    ensures wide { IsNarrow coefficients.now → IsWide result }
{
    let mut sum = 0i128;
    for i in 0..coefficients.len() {
        sum += term(row, coefficients, i);
    }
    sum
}

/// Whether a row meets an equation.
fn row_meets(rows: &[Row], coefficients: &[i64], k: usize) -> bool
    requires k { k < length rows.now }
    requires narrow { length coefficients.now ≤ 256 }
    requires width { length (line (lines rows.now) k).entries ≡ length coefficients.now }
    requires small { WithinBox (line (lines rows.now) k).entries }
    ensures yes { result ≡ true → dot coefficients.now (at (line (lines rows.now) k).entries) ≡ pos 0 }
    ensures no { result ≡ false → dot coefficients.now (at (line (lines rows.now) k).entries) ≡ pos 0 → ⊥ }
{
    if dot_product(&rows[k], coefficients) != 0 {
        return false;
    }
    true
}

/// Whether all rows meet an equation.
pub(crate) fn rows_meet(rows: &[Row], coefficients: &[i64]) -> bool
    requires narrow { length coefficients.now ≤ 256 }
    requires widths { (k : ℕ) → k < length (lines rows.now)
        → length (line (lines rows.now) k).entries ≡ length coefficients.now }
    requires small { (k : ℕ) → k < length (lines rows.now) → WithinBox (line (lines rows.now) k).entries }
    ensures yes { result ≡ true → (k : ℕ) → k < length (lines rows.now)
        → dot coefficients.now (at (line (lines rows.now) k).entries) ≡ pos 0 }
    ensures no { result ≡ false → (k : ℕ) × (k < length (lines rows.now))
        × (dot coefficients.now (at (line (lines rows.now) k).entries) ≡ pos 0 → ⊥) }
{
    for k in 0..rows.len() {
        if !row_meets(rows, coefficients, k) {
            return false;
        }
    }
    true
}
