//! The images of a span's rows under a matrix.
ghost use Rattle.std.specs.Prelude.{◌≡◌, ℕ, ◌<◌, ◌≤◌, ◌^◌, ℤ, pos, ◌*ℤ◌, length, true, IfOk};
ghost use Rattle.std.specs.List.{All};
ghost use Rattle.pungi_domain.specs.Vectors.{at, row_sum, image, IsMatrixRow, IsMatrix, Image, IsWithin, Vector};
ghost use Rattle.pungi_domain.specs.Vectors.{Follows};
ghost use Rattle.pungi_domain.specs.Spans.{LargeMap};
ghost use Rattle.pungi_domain.specs.Domain.{RangeIs};
ghost use Rattle.pungi_affine.specs.Forms.{lines, line, line_of, WithinBox};
ghost use Rattle.pungi_affine.specs.Rows.{row_entries};
ghost use Rattle.pungi_affine.specs.States.{SpanMember};
ghost use Rattle.pungi_affine.specs.Images.{IsTerm, IsImageOf, AreImagesOf};

use crate::Span;
use crate::row::{Row, product};
use crate::sum::{Given, with_all};
use pungi_base::Seq;
use pungi_domain::{DomainFault, Matrix};
use std::alloc::{AllocError, Global};

/// A factor of a row of a matrix times the entry of its source.
fn image_term(entries: &[i64], row: &[(u32, i64)], k: usize) -> i128
    requires k { k < length row.now }
    requires within { All (λ p. p.0 < length entries.now) row.now }
    requires small { WithinBox entries.now }
    ensures { IsTerm entries.now row.now k result }
{
    let (source, factor) = row[k];
    product(factor, entries[source as usize])
}

/// The factors of a row of a matrix times the entries of their sources, summed up.
fn image_entry(entries: &[i64], row: &[(u32, i64)]) -> i128
    requires row { IsMatrixRow (length entries.now) row.now }
    requires narrow { length entries.now ≤ 256 }
    requires small { WithinBox entries.now }
    ensures value { result ≡ row_sum row.now (at entries.now) }
    ensures within { IsWithin (2 ^ 126) result }
{
    let mut sum = 0i128;
    for k in 0..row.len() {
        sum += image_term(entries, row, k);
    }
    sum
}

/// A coordinate of the image.
fn image_at(matrix: &[Seq<(u32, i64)>], i: usize, entries: &[i64]) -> i128
    requires i { i < length matrix.now }
    requires matrix { IsMatrix (length entries.now) matrix.now }
    requires narrow { length entries.now ≤ 256 }
    requires small { WithinBox entries.now }
    ensures value { result ≡ image matrix.now (at entries.now) i }
    ensures within { IsWithin (2 ^ 126) result }
{
    image_entry(entries, matrix[i].as_slice())
}

/// The image of a row of a span.
fn row_image(alloc: Global, row: &Row, matrix: &[Seq<(u32, i64)>]) -> Result<Given, AllocError>
    requires matrix { IsMatrix (length (row_entries row.now)) matrix.now }
    requires narrow { length (row_entries row.now) ≤ 256 }
    requires small { WithinBox (row_entries row.now) }
    ensures { IfOk result (λ g. IsImageOf matrix.now (line_of row.now) g.entries.items) }
{
    let kept = row.all_entries(alloc)?;
    let kept = kept.as_slice();
    let mut entries = Vec::with_capacity(alloc, matrix.len())?;
    for i in 0..matrix.len() {
        entries.push(image_at(matrix, i, kept))?;
    }
    Ok(Given { entries })
}

fn row_images(
    alloc: Global,
    rows: &[Row],
    matrix: &[Seq<(u32, i64)>],
) -> Result<Vec<Given>, AllocError>
    requires matrix { (k : ℕ) → k < length (lines rows.now)
        → IsMatrix (length (line (lines rows.now) k).entries) matrix.now }
    requires narrow { (k : ℕ) → k < length (lines rows.now) → length (line (lines rows.now) k).entries ≤ 256 }
    requires small { (k : ℕ) → k < length (lines rows.now) → WithinBox (line (lines rows.now) k).entries }
    ensures { IfOk result (λ v. AreImagesOf matrix.now (lines rows.now) v.items) }
{
    let mut images = Vec::with_capacity(alloc, rows.len())?;
    for row in rows {
        images.push(row_image(alloc, row, matrix)?)?;
    }
    Ok(images)
}

/// The span of the images.
pub(crate) fn image_span(alloc: Global, span: &Span, matrix: &Matrix) -> Result<Span, DomainFault>
    requires fits { IsMatrix span.now.width matrix.now.rows }
    requires narrow { length matrix.now.rows ≤ 256 }
    ensures width { IfOk result (λ s. s.width ≡ length matrix.now.rows) }
    ensures members { IfOk result (λ s. (v : Vector) → SpanMember span.now v → SpanMember s (image matrix.now.rows v)) }
    ensures least { IfOk result (λ s. Follows (length matrix.now.rows) (Image matrix.now.rows (SpanMember span.now))
        (SpanMember s)) }
    ensures range { RangeIs true (LargeMap span.now.width matrix.now.rows (SpanMember span.now)) result }
{
    let images = row_images(alloc, span.rows.as_slice(), matrix.rows.as_slice())?;
    let start = Span::none(alloc, matrix.rows.len() as u32)?;
    let grown = with_all(alloc, start, images.as_slice())?;
    Ok(grown.span)
}
