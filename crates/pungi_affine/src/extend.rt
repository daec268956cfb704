//! Forms with one vector more.
ghost use Rattle.std.specs.Prelude.{◌≡◌, ℕ, ◌+◌, ◌<◌, ◌^◌, ℤ, ◌*ℤ◌, length, IfOk};
ghost use Rattle.pungi_domain.specs.Vectors.{at, IsWithin};
ghost use Rattle.pungi_affine.specs.Forms.{line, lines, line_of, IsBox, WithinBox};
ghost use Rattle.pungi_affine.specs.Rows.{row_entries};
ghost use Rattle.pungi_affine.specs.Parts.{wide_line, wide_lines};
ghost use Rattle.pungi_affine.specs.Mixes.{IsWide, mixed_entry, IsMixed, AreMixed, IsMultiple, IsPlace, IsExtended};

use crate::form::WideForm;
use crate::part::WideRow;
use crate::row::Row;
use std::alloc::{AllocError, Global};

/// A product of a wide number with one up to 2^31.
fn wide_product(a: i128, b: i64) -> i128
    requires a { IsWide a }
    requires b { IsBox b }
    ensures value { result ≡ a *ℤ b }
    ensures within { IsWithin (2 ^ 125 + 2 ^ 90) result }
{
    a * i128::from(b)
}

/// The product of an entry of u with one of the row.
pub(crate) fn times(u: &[i128], j: usize, row: &Row, i: usize) -> i128
    requires within { (j < length u.now) × (i < length (row_entries row.now)) }
    requires u { IsWide (at u.now j) }
    requires row { IsBox (at (row_entries row.now) i) }
    ensures value { result ≡ at u.now j *ℤ at (row_entries row.now) i }
    ensures within { IsWithin (2 ^ 125 + 2 ^ 90) result }
{
    wide_product(u[j], row.entry(i))
}

/// An entry of the row from which u is taken, so that it is 0 at q.
fn mixed_entry(u: &[i128], q: usize, row: &Row, i: usize) -> i128
    requires within { (q < length u.now) × (i < length u.now) × (length (row_entries row.now) ≡ length u.now) }
    requires u { (j : ℕ) → j < length u.now → IsWide (at u.now j) }
    requires row { WithinBox (row_entries row.now) }
    ensures value { result ≡ mixed_entry u.now q (row_entries row.now) i }
    ensures within { IsWithin (2 ^ 126 + 2 ^ 91) result }
{
    times(u, q, row, i) - times(u, i, row, q)
}

/// The row from which u is taken, so that it is 0 at q.
fn mixed_row(alloc: Global, u: &[i128], q: usize, row: &Row) -> Result<WideRow, AllocError>
    requires within { (q < length u.now) × (length (row_entries row.now) ≡ length u.now) }
    requires u { (j : ℕ) → j < length u.now → IsWide (at u.now j) }
    requires row { WithinBox (row_entries row.now) }
    ensures { IfOk result (λ r. IsMixed u.now q (line_of row.now) (wide_line r)) }
{
    let mut entries = Vec::with_capacity(alloc, u.len())?;
    for i in 0..u.len() {
        entries.push(mixed_entry(u, q, row, i))?;
    }
    Ok(WideRow {
        pivot: row.pivot,
        entries,
    })
}

fn mixed_rows(alloc: Global, u: &[i128], q: usize, rows: &[Row]) -> Result<Vec<WideRow>, AllocError>
    requires within { q < length u.now }
    requires widths { (k : ℕ) → k < length (lines rows.now) → length (line (lines rows.now) k).entries ≡ length u.now }
    requires u { (j : ℕ) → j < length u.now → IsWide (at u.now j) }
    requires rows { (k : ℕ) → k < length (lines rows.now) → WithinBox (line (lines rows.now) k).entries }
    ensures { IfOk result (λ v. AreMixed u.now q (lines rows.now) (wide_lines v.items)) }
{
    let mut mixes = Vec::with_capacity(alloc, rows.len() + 1)?;
    for row in rows {
        mixes.push(mixed_row(alloc, u, q, row)?)?;
    }
    Ok(mixes)
}

/// The d-fold of an entry.
pub(crate) fn multiple_entry(d: i64, u: &[i128], i: usize) -> i128
    requires within { i < length u.now }
    requires d { IsBox d }
    requires u { IsWide (at u.now i) }
    ensures value { result ≡ d *ℤ at u.now i }
    ensures within { IsWithin (2 ^ 125 + 2 ^ 90) result }
{
    wide_product(u[i], d)
}

/// The d-fold of a row.
pub(crate) fn multiple(alloc: Global, d: i64, row: &WideRow) -> Result<WideRow, AllocError>
    requires d { IsBox d }
    requires row { (j : ℕ) → j < length row.now.entries.items → IsWide (at row.now.entries.items j) }
    ensures { IfOk result (λ r. IsMultiple d (wide_line row.now) (wide_line r)) }
{
    let u = row.entries.as_slice();
    let mut entries = Vec::with_capacity(alloc, u.len())?;
    for i in 0..u.len() {
        entries.push(multiple_entry(d, u, i))?;
    }
    Ok(WideRow {
        pivot: row.pivot,
        entries,
    })
}

/// How many rows have their pivot before q.
pub(crate) fn place(rows: &[Row], q: u32) -> usize
    ensures { IsPlace (lines rows.now) q result }
{
    for k in 0..rows.len() {
        if rows[k].pivot >= q {
            return k;
        }
    }
    rows.len()
}

/// The form of the rows and of one more, which is 0 at their pivots.
pub(crate) fn extended_form(
    alloc: Global,
    d: i64,
    rows: &[Row],
    new: &WideRow,
) -> Result<WideForm, AllocError>
    requires d { IsBox d }
    requires within { new.now.pivot < length new.now.entries.items }
    requires widths { (k : ℕ) → k < length (lines rows.now)
        → length (line (lines rows.now) k).entries ≡ length new.now.entries.items }
    requires new { (j : ℕ) → j < length new.now.entries.items → IsWide (at new.now.entries.items j) }
    requires rows { (k : ℕ) → k < length (lines rows.now) → WithinBox (line (lines rows.now) k).entries }
    ensures { IfOk result (λ f. IsExtended d (lines rows.now) (wide_line new.now) f.scale (wide_lines f.rows.items)) }
{
    let u = new.entries.as_slice();
    let q = new.pivot as usize;
    let scale = multiple_entry(d, u, q);
    let mut wide = mixed_rows(alloc, u, q, rows)?;
    let row = multiple(alloc, d, new)?;
    wide.insert(place(rows, new.pivot), row)?;
    Ok(WideForm { scale, rows: wide })
}
