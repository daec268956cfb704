//! What is left of a vector without the rows of a span.
ghost use Rattle.std.specs.Prelude.{◌≡◌, ℕ, ◌<◌, ◌≤◌, ◌^◌, ℤ, pos, ◌*ℤ◌, ◌<ℤ◌, length, true, IfOk};
ghost use Rattle.pungi_domain.specs.Vectors.{at, IsWithin};
ghost use Rattle.pungi_affine.specs.Forms.{line, lines, fill, IsBox, WithinBox};
ghost use Rattle.pungi_affine.specs.Rows.{row_entries};
ghost use Rattle.pungi_affine.specs.Steps.{residual};
ghost use Rattle.pungi_affine.specs.Mixes.{IsResidual, IsLeftPart};

use crate::part::{WideRow, part_of};
use crate::row::Row;
use std::alloc::{AllocError, Global};

/// A number up to 2^31 in 64 bits.
pub(crate) fn narrow(a: i128) -> i64
    requires { IsBox a }
    ensures { result ≡ a }
{
    a as i64
}

/// A product of numbers up to 2^31.
fn small_product(a: i64, b: i64) -> i128
    requires a { IsBox a }
    requires b { IsBox b }
    ensures value { result ≡ a *ℤ b }
    ensures within { IsWithin (2 ^ 62) result }
{
    i128::from(a) * i128::from(b)
}

/// What a row adds at a coordinate.
fn share(v: &[i128], row: &Row, i: usize) -> i128
    requires within { (row.now.pivot < length v.now) × (i < length (row_entries row.now)) }
    requires v { IsBox (at v.now row.now.pivot) }
    requires row { IsBox (at (row_entries row.now) i) }
    ensures value { result ≡ at v.now row.now.pivot *ℤ at (row_entries row.now) i }
    ensures within { IsWithin (2 ^ 62) result }
{
    small_product(narrow(v[row.pivot as usize]), row.entry(i))
}

/// What the rows make of v's entries at the pivots, at a coordinate.
fn filled_entry(rows: &[Row], v: &[i128], i: usize) -> i128
    requires few { length rows.now ≤ 256 }
    requires i { i < length v.now }
    requires v { WithinBox v.now }
    requires pivots { (k : ℕ) → k < length (lines rows.now) → (line (lines rows.now) k).pivot < length v.now }
    requires widths { (k : ℕ) → k < length (lines rows.now) → length (line (lines rows.now) k).entries ≡ length v.now }
    requires rows { (k : ℕ) → k < length (lines rows.now) → WithinBox (line (lines rows.now) k).entries }
    ensures value { result ≡ fill (at v.now) (lines rows.now) i }
    ensures within { IsWithin (2 ^ 70) result }
{
    let mut sum = 0i128;
    for row in rows {
        sum += share(v, row, i);
    }
    sum
}

/// The d-fold of v's entry at a coordinate.
fn scaled_entry(d: i64, v: &[i128], i: usize) -> i128
    requires within { i < length v.now }
    requires d { IsBox d }
    requires v { IsBox (at v.now i) }
    ensures value { result ≡ d *ℤ at v.now i }
    ensures within { IsWithin (2 ^ 62) result }
{
    small_product(d, narrow(v[i]))
}

/// What is left of the d-fold of v without the rows, at a coordinate.
fn residual_entry(d: i64, rows: &[Row], v: &[i128], i: usize) -> i128
    requires d { IsBox d }
    requires few { length rows.now ≤ 256 }
    requires i { i < length v.now }
    requires v { WithinBox v.now }
    requires pivots { (k : ℕ) → k < length (lines rows.now) → (line (lines rows.now) k).pivot < length v.now }
    requires widths { (k : ℕ) → k < length (lines rows.now) → length (line (lines rows.now) k).entries ≡ length v.now }
    requires rows { (k : ℕ) → k < length (lines rows.now) → WithinBox (line (lines rows.now) k).entries }
    ensures value { result ≡ residual d (lines rows.now) (at v.now) i }
    ensures within { IsWithin (2 ^ 71) result }
{
    scaled_entry(d, v, i) - filled_entry(rows, v, i)
}

/// Whether nothing is left of the d-fold of v without the rows, entry by entry.
fn are_nothing(d: i64, rows: &[Row], v: &[i128]) -> bool
    requires d { IsBox d }
    requires few { length rows.now ≤ 256 }
    requires v { WithinBox v.now }
    requires pivots { (k : ℕ) → k < length (lines rows.now) → (line (lines rows.now) k).pivot < length v.now }
    requires widths { (k : ℕ) → k < length (lines rows.now) → length (line (lines rows.now) k).entries ≡ length v.now }
    requires rows { (k : ℕ) → k < length (lines rows.now) → WithinBox (line (lines rows.now) k).entries }
    ensures { result ≡ true → (i : ℕ) → i < length v.now → residual d (lines rows.now) (at v.now) i ≡ pos 0 }
{
    for i in 0..v.len() {
        if residual_entry(d, rows, v, i) != 0 {
            return false;
        }
    }
    true
}

/// What is left of the d-fold of v without the rows, entry by entry.
fn residual_entries(
    alloc: Global,
    d: i64,
    rows: &[Row],
    v: &[i128],
) -> Result<Vec<i128>, AllocError>
    requires d { IsBox d }
    requires few { length rows.now ≤ 256 }
    requires v { WithinBox v.now }
    requires pivots { (k : ℕ) → k < length (lines rows.now) → (line (lines rows.now) k).pivot < length v.now }
    requires widths { (k : ℕ) → k < length (lines rows.now) → length (line (lines rows.now) k).entries ≡ length v.now }
    requires rows { (k : ℕ) → k < length (lines rows.now) → WithinBox (line (lines rows.now) k).entries }
    ensures { IfOk result (λ u. IsResidual d (lines rows.now) v.now u.items) }
{
    let mut left = Vec::with_capacity(alloc, v.len())?;
    for i in 0..v.len() {
        left.push(residual_entry(d, rows, v, i))?;
    }
    Ok(left)
}

/// Whether v is 0 at the pivot of a row.
fn is_zero_at_pivot(rows: &[Row], v: &[i128], k: usize) -> bool
    requires k { k < length rows.now }
    requires pivot { (line (lines rows.now) k).pivot < length v.now }
    ensures { result ≡ true → at v.now (line (lines rows.now) k).pivot ≡ pos 0 }
{
    v[rows[k].pivot as usize] == 0
}

/// Whether v is 0 at all pivots.
fn is_zero_at_pivots(rows: &[Row], v: &[i128]) -> bool
    requires pivots { (k : ℕ) → k < length (lines rows.now) → (line (lines rows.now) k).pivot < length v.now }
    ensures { result ≡ true → (k : ℕ) → k < length (lines rows.now)
        → at v.now (line (lines rows.now) k).pivot ≡ pos 0 }
{
    for k in 0..rows.len() {
        if !is_zero_at_pivot(rows, v, k) {
            return false;
        }
    }
    true
}

/// Whether the d-fold of v is a multiple of a row, at a coordinate.
fn is_multiple_at(d: i64, rows: &[Row], v: &[i128], k: usize, i: usize) -> bool
    requires d { IsBox d }
    requires k { k < length rows.now }
    requires i { i < length v.now }
    requires v { WithinBox v.now }
    requires pivot { (line (lines rows.now) k).pivot < length v.now }
    requires width { length (line (lines rows.now) k).entries ≡ length v.now }
    requires row { WithinBox (line (lines rows.now) k).entries }
    ensures { result ≡ true → d *ℤ at v.now i
        ≡ at v.now (line (lines rows.now) k).pivot *ℤ at (line (lines rows.now) k).entries i }
{
    scaled_entry(d, v, i) == share(v, &rows[k], i)
}

/// Whether the d-fold of v is a multiple of a row.
fn is_multiple(d: i64, rows: &[Row], v: &[i128], k: usize) -> bool
    requires d { IsBox d }
    requires k { k < length rows.now }
    requires v { WithinBox v.now }
    requires pivot { (line (lines rows.now) k).pivot < length v.now }
    requires width { length (line (lines rows.now) k).entries ≡ length v.now }
    requires row { WithinBox (line (lines rows.now) k).entries }
    ensures { result ≡ true → (i : ℕ) → i < length v.now → d *ℤ at v.now i
        ≡ at v.now (line (lines rows.now) k).pivot *ℤ at (line (lines rows.now) k).entries i }
{
    for i in 0..v.len() {
        if !is_multiple_at(d, rows, v, k, i) {
            return false;
        }
    }
    true
}

/// Whether the d-fold of v is a multiple of the first row at whose pivot v isn't 0.
pub(crate) fn is_multiple_of_row(d: i64, rows: &[Row], v: &[i128]) -> bool
    requires d { IsBox d }
    requires v { WithinBox v.now }
    requires pivots { (k : ℕ) → k < length (lines rows.now) → (line (lines rows.now) k).pivot < length v.now }
    requires widths { (k : ℕ) → k < length (lines rows.now) → length (line (lines rows.now) k).entries ≡ length v.now }
    requires rows { (k : ℕ) → k < length (lines rows.now) → WithinBox (line (lines rows.now) k).entries }
    ensures { result ≡ true → (k : ℕ) × (k < length (lines rows.now)) × ((i : ℕ) → i < length v.now
        → d *ℤ at v.now i ≡ at v.now (line (lines rows.now) k).pivot *ℤ at (line (lines rows.now) k).entries i) }
{
    for k in 0..rows.len() {
        if !is_zero_at_pivot(rows, v, k) {
            return is_multiple(d, rows, v, k);
        }
    }
    false
}

/// Whether nothing is left of the d-fold of v without the rows.
pub(crate) fn leaves_nothing(d: i64, rows: &[Row], v: &[i128]) -> bool
    requires d { IsBox d }
    requires few { length rows.now ≤ 256 }
    requires v { WithinBox v.now }
    requires pivots { (k : ℕ) → k < length (lines rows.now) → (line (lines rows.now) k).pivot < length v.now }
    requires widths { (k : ℕ) → k < length (lines rows.now) → length (line (lines rows.now) k).entries ≡ length v.now }
    requires rows { (k : ℕ) → k < length (lines rows.now) → WithinBox (line (lines rows.now) k).entries }
    ensures { result ≡ true → (i : ℕ) → i < length v.now → residual d (lines rows.now) (at v.now) i ≡ pos 0 }
{
    if is_zero_at_pivots(rows, v) {
        return are_nothing(d, &[], v);
    }
    are_nothing(d, rows, v)
}

/// What is left of the d-fold of v without the rows, without the common divisor of its entries. None where nothing is.
pub(crate) fn left_part(
    alloc: Global,
    d: i64,
    rows: &[Row],
    v: &[i128],
) -> Result<Option<WideRow>, AllocError>
    requires d { IsBox d }
    requires positive { pos 0 <ℤ d }
    requires few { length rows.now ≤ 256 }
    requires narrow { length v.now ≤ 256 }
    requires v { WithinBox v.now }
    requires pivots { (k : ℕ) → k < length (lines rows.now) → (line (lines rows.now) k).pivot < length v.now }
    requires widths { (k : ℕ) → k < length (lines rows.now) → length (line (lines rows.now) k).entries ≡ length v.now }
    requires rows { (k : ℕ) → k < length (lines rows.now) → WithinBox (line (lines rows.now) k).entries }
    ensures { IfOk result (IsLeftPart d (lines rows.now) v.now) }
{
    if is_zero_at_pivots(rows, v) {
        return part_of(alloc, v);
    }
    let left = residual_entries(alloc, d, rows, v)?;
    part_of(alloc, left.as_slice())
}
