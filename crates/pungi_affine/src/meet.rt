//! The vectors of a span that meet an equation.
ghost use Rattle.std.specs.Prelude.{◌≡◌, ℕ, ◌<◌, ◌≤◌, ◌+◌, ◌^◌, ℤ, pos, ◌*ℤ◌, ◌<ℤ◌, length, true, IfOk};
ghost use Rattle.std.specs.List.{remove};
ghost use Rattle.pungi_domain.specs.Vectors.{at, dot, IsEquation, IsWithin, Meeting};
ghost use Rattle.pungi_domain.specs.Spans.{LargeMeet};
ghost use Rattle.pungi_domain.specs.Domain.{RangeIs};
ghost use Rattle.pungi_affine.specs.Spans.{SameMembers};
ghost use Rattle.pungi_affine.specs.Forms.{line, lines, line_of, IsBox, WithinBox};
ghost use Rattle.pungi_affine.specs.Parts.{wide_line, wide_lines};
ghost use Rattle.pungi_affine.specs.Mixes.{IsNarrow, IsWide};
ghost use Rattle.pungi_affine.specs.Meets.{AreSums, LastOf, crossed_entry, IsCrossed, AreCrossed, IsTurned, IsMetForm};
ghost use Rattle.pungi_affine.specs.States.{SpanMember};

use crate::Span;
use crate::extend::{multiple_entry, times};
use crate::form::WideForm;
use crate::part::{WideRow, negate};
use crate::reduce::reduced_span;
use crate::row::{Row, dot_product};
use pungi_domain::{DomainFault, Equation};
use std::alloc::{AllocError, Global};

/// The coefficients times the entries of each row, summed up.
fn row_sums(alloc: Global, rows: &[Row], coefficients: &[i64]) -> Result<Vec<i128>, AllocError>
    requires narrow { length coefficients.now ≤ 256 }
    requires tight { IsNarrow coefficients.now }
    requires widths { (k : ℕ) → k < length (lines rows.now)
        → length (line (lines rows.now) k).entries ≡ length coefficients.now }
    requires small { (k : ℕ) → k < length (lines rows.now) → WithinBox (line (lines rows.now) k).entries }
    ensures { IfOk result (λ s. AreSums (pos 1) coefficients.now (lines rows.now) s.items) }
{
    let mut sums = Vec::new(alloc);
    for row in rows {
        sums.push(dot_product(row, coefficients))?;
    }
    Ok(sums)
}

/// The last place with an entry other than 0.
pub(crate) fn last_entry(sums: &[i128]) -> Option<usize>
    ensures { LastOf sums.now result }
{
    let n = sums.len();
    for k in 0..n {
        if sums[n - 1 - k] != 0 {
            return Some(n - 1 - k);
        }
    }
    None
}

/// Turns all signs where the number at p is below 0.
fn turn(sums: &mut [i128], p: usize)
    requires within { p < length sums.old }
    requires entry { at sums.old p ≡ pos 0 → ⊥ }
    requires wide { (k : ℕ) → k < length sums.old → IsWide (at sums.old k) }
    ensures { IsTurned sums.old p sums.new }
{
    if sums[p] < 0 {
        negate(sums);
    }
}

/// The sums, or their opposites, so that the one at p is above 0.
fn turned_sums(sums: Vec<i128>, p: usize) -> Vec<i128>
    requires within { p < length sums.items }
    requires entry { at sums.items p ≡ pos 0 → ⊥ }
    requires wide { (k : ℕ) → k < length sums.items → IsWide (at sums.items k) }
    ensures { IsTurned sums.items p result.items }
{
    let mut sums = sums;
    turn(sums.as_mut_slice(), p);
    sums
}

/// An entry of the row at k less the one at p, so that it meets the equation.
fn crossed_entry(sums: &[i128], p: usize, rows: &[Row], k: usize, i: usize) -> i128
    requires within { (p < length (lines rows.now)) × (k < length (lines rows.now))
        × (length sums.now ≡ length (lines rows.now)) }
    requires i { (j : ℕ) → j < length (lines rows.now) → i < length (line (lines rows.now) j).entries }
    requires wide { (j : ℕ) → j < length sums.now → IsWide (at sums.now j) }
    requires small { (j : ℕ) → j < length (lines rows.now) → WithinBox (line (lines rows.now) j).entries }
    ensures value { result ≡ crossed_entry (at sums.now p) (line (lines rows.now) k) (at sums.now k)
        (line (lines rows.now) p) i }
    ensures within { IsWithin (2 ^ 126 + 2 ^ 91) result }
{
    times(sums, p, &rows[k], i) - times(sums, k, &rows[p], i)
}

fn crossed_row(
    alloc: Global,
    sums: &[i128],
    p: usize,
    rows: &[Row],
    k: usize,
) -> Result<WideRow, AllocError>
    requires within { (p < length (lines rows.now)) × (k < length (lines rows.now))
        × (length sums.now ≡ length (lines rows.now)) }
    requires widths { (j : ℕ) → j < length (lines rows.now)
        → length (line (lines rows.now) j).entries ≡ length (line (lines rows.now) k).entries }
    requires wide { (j : ℕ) → j < length sums.now → IsWide (at sums.now j) }
    requires small { (j : ℕ) → j < length (lines rows.now) → WithinBox (line (lines rows.now) j).entries }
    ensures { IfOk result (λ r. IsCrossed (at sums.now p) (line (lines rows.now) k) (at sums.now k)
        (line (lines rows.now) p) (wide_line r)) }
{
    let mut entries = Vec::new(alloc);
    for i in 0..rows[k].width() {
        entries.push(crossed_entry(sums, p, rows, k, i))?;
    }
    Ok(WideRow {
        pivot: rows[k].pivot,
        entries,
    })
}

fn crossed_rows(
    alloc: Global,
    sums: &[i128],
    p: usize,
    rows: &[Row],
) -> Result<Vec<WideRow>, AllocError>
    requires within { (p < length (lines rows.now)) × (length sums.now ≡ length (lines rows.now)) }
    requires widths { (j k : ℕ) → j < length (lines rows.now) → k < length (lines rows.now)
        → length (line (lines rows.now) j).entries ≡ length (line (lines rows.now) k).entries }
    requires wide { (j : ℕ) → j < length sums.now → IsWide (at sums.now j) }
    requires small { (j : ℕ) → j < length (lines rows.now) → WithinBox (line (lines rows.now) j).entries }
    ensures { IfOk result (λ v. AreCrossed sums.now p (lines rows.now) (wide_lines v.items)) }
{
    let mut crosses = Vec::new(alloc);
    for k in 0..rows.len() {
        crosses.push(crossed_row(alloc, sums, p, rows, k)?)?;
    }
    Ok(crosses)
}

/// The form of the rows crossed with the one at p, without that one.
fn met_form(
    alloc: Global,
    d: i64,
    rows: &[Row],
    sums: &[i128],
    p: usize,
) -> Result<WideForm, AllocError>
    requires d { IsBox d }
    requires within { (p < length (lines rows.now)) × (length sums.now ≡ length (lines rows.now)) }
    requires widths { (j k : ℕ) → j < length (lines rows.now) → k < length (lines rows.now)
        → length (line (lines rows.now) j).entries ≡ length (line (lines rows.now) k).entries }
    requires wide { (j : ℕ) → j < length sums.now → IsWide (at sums.now j) }
    requires small { (j : ℕ) → j < length (lines rows.now) → WithinBox (line (lines rows.now) j).entries }
    ensures { IfOk result (λ f. IsMetForm d (lines rows.now) sums.now p f.scale (wide_lines f.rows.items)) }
{
    let mut wide = crossed_rows(alloc, sums, p, rows)?;
    let _ = wide.remove(p);
    Ok(WideForm {
        scale: multiple_entry(d, sums, p),
        rows: wide,
    })
}

/// The span of the vectors that meet an equation.
pub(crate) fn meeting_span(
    alloc: Global,
    span: &Span,
    equation: &Equation,
) -> Result<Span, DomainFault>
    requires { IsEquation span.now.width equation.now.coefficients }
    ensures width { IfOk result (λ s. s.width ≡ span.now.width) }
    ensures members { IfOk result (λ s. SameMembers (Meeting equation.now.coefficients (SpanMember span.now))
        (SpanMember s)) }
    ensures range { RangeIs true (LargeMeet span.now.width equation.now.coefficients (SpanMember span.now)) result }
{
    let rows = span.rows.as_slice();
    let sums = row_sums(alloc, rows, equation.coefficients.as_slice())?;
    let Some(p) = last_entry(sums.as_slice()) else {
        return span.copy(alloc);
    };
    let sums = turned_sums(sums, p);
    let form = met_form(alloc, span.scale, rows, sums.as_slice(), p)?;
    reduced_span(alloc, span.width, form)
}
