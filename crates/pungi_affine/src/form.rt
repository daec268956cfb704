//! Forms whose numbers may be over 2^31, and the spans that they make.
ghost use Rattle.std.specs.Prelude.{◌≡◌, ℕ, ◌<◌, ◌≤◌, ℤ, pos, ◌*ℤ◌, ◌<ℤ◌, length, IfOk};
ghost use Rattle.pungi_domain.specs.Vectors.{at};
ghost use Rattle.pungi_domain.specs.Spans.{Divides, LargeRow};
ghost use Rattle.pungi_domain.specs.Domain.{RangeIs};
ghost use Rattle.pungi_affine.specs.Spans.{InSpan, SameMembers};
ghost use Rattle.pungi_affine.specs.Forms.{line, lines, line_of, vectors, WithinBox};
ghost use Rattle.pungi_affine.specs.Divisors.{IsShared};
ghost use Rattle.pungi_affine.specs.Parts.{wide_line, wide_lines, IsLong};
ghost use Rattle.pungi_affine.specs.WideForms.{IsQuotientLine, AreQuotients, IsWideForm, IsLeastForm, HasLarge};
ghost use Rattle.pungi_affine.specs.States.{IsKept};

use crate::divisor::{content, gcd, take_out};
use crate::meet::last_entry;
use crate::part::{WideRow, first_entry, has_large};
use crate::row::Row;
use std::alloc::{AllocError, Global};

/// Rows that are scaled and reduced, but have perhaps a common divisor.
#[derive(Drop)]
pub(crate) struct WideForm {
    pub(crate) scale: i128,
    pub(crate) rows: Vec<WideRow>,
}

/// The common divisor of all numbers.
fn common_divisor(form: &WideForm) -> i128
    requires scale { pos 0 <ℤ form.now.scale }
    requires long { IsLong form.now.scale }
    ensures positive { pos 0 <ℤ result }
    ensures shared { IsShared form.now.scale (wide_lines form.now.rows.items) result }
{
    let mut common = form.scale.unsigned_abs();
    let rows = form.rows.as_slice();
    for row in rows {
        if common == 1 {
            return 1;
        }
        common = gcd(common, content(row.entries.as_slice()));
    }
    common as i128
}

fn divided(alloc: Global, row: &WideRow, g: i128) -> Result<WideRow, AllocError>
    requires g { pos 0 <ℤ g }
    requires divides { (i : ℕ) → i < length row.now.entries.items → Divides g (at row.now.entries.items i) }
    ensures { IfOk result (λ r. IsQuotientLine g (wide_line row.now) (wide_line r)) }
{
    let mut entries = Vec::from_slice(alloc, row.entries.as_slice())?;
    take_out(entries.as_mut_slice(), g);
    Ok(WideRow {
        pivot: row.pivot,
        entries,
    })
}

fn divided_rows(alloc: Global, rows: &[WideRow], g: i128) -> Result<Vec<WideRow>, AllocError>
    requires g { pos 0 <ℤ g }
    requires divides { (k : ℕ) → k < length (wide_lines rows.now) → (i : ℕ)
        → i < length (line (wide_lines rows.now) k).entries
        → Divides g (at (line (wide_lines rows.now) k).entries i) }
    ensures { IfOk result (λ v. AreQuotients g (wide_lines rows.now) (wide_lines v.items)) }
{
    let mut quotients = Vec::with_capacity(alloc, rows.len())?;
    for row in rows {
        quotients.push(divided(alloc, row, g)?)?;
    }
    Ok(quotients)
}

fn divided_scale(form: &WideForm, g: i128) -> i128
    requires g { pos 0 <ℤ g }
    requires long { IsLong form.now.scale }
    requires divides { Divides g form.now.scale }
    ensures { g *ℤ result ≡ form.now.scale }
{
    form.scale / g
}

/// The form with the common divisor g taken out.
fn divided_form(alloc: Global, width: u32, form: &WideForm, g: i128) -> Result<WideForm, AllocError>
    requires form { IsWideForm width form.now.scale (wide_lines form.now.rows.items) }
    requires g { pos 0 <ℤ g }
    requires shared { IsShared form.now.scale (wide_lines form.now.rows.items) g }
    ensures { IfOk result (λ f. IsLeastForm width (wide_lines form.now.rows.items) f.scale (wide_lines f.rows.items)) }
{
    let rows = divided_rows(alloc, form.rows.as_slice(), g)?;
    Ok(WideForm {
        scale: divided_scale(form, g),
        rows,
    })
}

/// The form of the same span with the least scale.
pub(crate) fn least_form(alloc: Global, width: u32, form: WideForm) -> Result<WideForm, AllocError>
    requires { IsWideForm width form.scale (wide_lines form.rows.items) }
    ensures { IfOk result (λ f. IsLeastForm width (wide_lines form.rows.items) f.scale (wide_lines f.rows.items)) }
{
    let g = common_divisor(&form);
    if g == 1 {
        return Ok(form);
    }
    divided_form(alloc, width, &form, g)
}

/// The place of a row with an entry over 2^31 in absolute value.
pub(crate) fn large_row(rows: &[WideRow]) -> Option<usize>
    ensures { HasLarge (wide_lines rows.now) result }
{
    for k in 0..rows.len() {
        if has_large(rows[k].entries.as_slice()) {
            return Some(k);
        }
    }
    None
}

/// Where the zeros at the end begin.
fn end_of(entries: &[i128]) -> usize
    ensures within { result ≤ length entries.now }
    ensures zeros { (i : ℕ) → result ≤ i → i < length entries.now → at entries.now i ≡ pos 0 }
{
    match last_entry(entries) {
        Some(last) => last + 1,
        None => 0,
    }
}

/// Numbers of which none is over 2^31.
pub(crate) fn narrowed_entries(alloc: Global, wide: &[i128]) -> Result<Vec<i64>, AllocError>
    requires { WithinBox wide.now }
    ensures { IfOk result (λ v. v.items ≡ wide.now) }
{
    let mut entries = Vec::with_capacity(alloc, wide.len())?;
    for entry in wide {
        entries.push(*entry as i64)?;
    }
    Ok(entries)
}

pub(crate) fn narrowed(alloc: Global, row: &WideRow) -> Result<Row, AllocError>
    requires { WithinBox row.now.entries.items }
    ensures { IfOk result (λ r. line_of r ≡ wide_line row.now) }
{
    let wide = row.entries.as_slice();
    let start = first_entry(wide);
    let end = end_of(wide).max(start);
    let entries = narrowed_entries(alloc, &wide[start..end])?;
    Ok(Row {
        pivot: row.pivot,
        width: wide.len(),
        start,
        entries,
    })
}

/// The rows, of which no entry is over 2^31, as rows to be kept.
pub(crate) fn narrowed_rows(alloc: Global, rows: &[WideRow]) -> Result<Vec<Row>, AllocError>
    requires { (k : ℕ) → k < length (wide_lines rows.now) → WithinBox (line (wide_lines rows.now) k).entries }
    ensures { IfOk result (λ v. lines v.items ≡ wide_lines rows.now) }
{
    let mut kept = Vec::with_capacity(alloc, rows.len())?;
    for row in rows {
        kept.push(narrowed(alloc, row)?)?;
    }
    Ok(kept)
}
