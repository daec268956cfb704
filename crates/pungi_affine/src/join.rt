//! Rows that are added without a change of the others.
ghost use Rattle.std.specs.Prelude.{◌≡◌, ℕ, ◌<◌, pos, ◌*ℤ◌, ◌<ℤ◌, length, true, IfOk, IfSome};
ghost use Rattle.pungi_domain.specs.Vectors.{at};
ghost use Rattle.pungi_affine.specs.Forms.{line, lines, IsBox, WithinBox};
ghost use Rattle.pungi_affine.specs.Mixes.{IsWide};
ghost use Rattle.pungi_affine.specs.Parts.{wide_line};
ghost use Rattle.pungi_affine.specs.Joins.{IsPlain, IsJoined};

use crate::extend::{multiple, place};
use crate::form::narrowed;
use crate::part::{WideRow, has_large};
use crate::residual::narrow;
use crate::row::Row;
use std::alloc::{AllocError, Global};

/// Whether a row is 0 at q.
fn is_zero_at(rows: &[Row], k: usize, q: usize) -> bool
    requires k { k < length rows.now }
    requires within { q < length (line (lines rows.now) k).entries }
    ensures { result ≡ true → at (line (lines rows.now) k).entries q ≡ pos 0 }
{
    rows[k].entry(q) == 0
}

/// Whether all rows are 0 at q.
fn are_zero_at(rows: &[Row], q: usize) -> bool
    requires within { (k : ℕ) → k < length (lines rows.now) → q < length (line (lines rows.now) k).entries }
    ensures { result ≡ true → (k : ℕ) → k < length (lines rows.now)
        → at (line (lines rows.now) k).entries q ≡ pos 0 }
{
    for k in 0..rows.len() {
        if !is_zero_at(rows, k, q) {
            return false;
        }
    }
    true
}

/// How many times an entry the scale is. None where that is no whole number.
fn factor_to(d: i64, entry: i128) -> Option<i64>
    requires d { IsBox d }
    requires entry { pos 0 <ℤ entry }
    ensures { IfSome result (λ f. (f *ℤ entry ≡ d) × IsBox f) }
{
    if entry > i128::from(d) {
        return None;
    }
    let entry = narrow(entry);
    let factor = d.checked_div(entry)?;
    if factor.checked_mul(entry)? != d {
        return None;
    }
    Some(factor)
}

/// The entry at the pivot.
fn pivot_entry(row: &WideRow) -> i128
    requires { row.now.pivot < length row.now.entries.items }
    ensures { result ≡ at row.now.entries.items row.now.pivot }
{
    row.entries[row.pivot as usize]
}

/// The multiple of a row that may be added to rows of this scale without a change of these. None where there is no
/// such row.
pub(crate) fn plain_row(
    alloc: Global,
    d: i64,
    rows: &[Row],
    new: &WideRow,
) -> Result<Option<WideRow>, AllocError>
    requires d { IsBox d }
    requires pivot { new.now.pivot < length new.now.entries.items }
    requires entry { pos 0 <ℤ at new.now.entries.items new.now.pivot }
    requires wide { (j : ℕ) → j < length new.now.entries.items → IsWide (at new.now.entries.items j) }
    requires within { (k : ℕ) → k < length (lines rows.now) → new.now.pivot < length (line (lines rows.now) k).entries }
    ensures { IfOk result (λ o. IfSome o (λ r. IsPlain d (lines rows.now) (wide_line new.now) (wide_line r))) }
{
    let q = new.pivot as usize;
    let Some(factor) = factor_to(d, pivot_entry(new)) else {
        return Ok(None);
    };
    if !are_zero_at(rows, q) {
        return Ok(None);
    }
    let row = multiple(alloc, factor, new)?;
    if has_large(row.entries.as_slice()) {
        return Ok(None);
    }
    Ok(Some(row))
}

/// The rows and, in its place, one more.
pub(crate) fn joined_rows(
    alloc: Global,
    rows: Vec<Row>,
    new: &WideRow,
) -> Result<Vec<Row>, AllocError>
    requires { WithinBox new.now.entries.items }
    ensures { IfOk result (λ v. IsJoined (lines rows.items) (wide_line new.now) (lines v.items)) }
{
    let mut joined = rows;
    let row = narrowed(alloc, new)?;
    let at = place(joined.as_slice(), new.pivot);
    joined.insert(at, row)?;
    Ok(joined)
}
