//! Adding a vector to a span.
ghost use Rattle.std.specs.Prelude.{◌≡◌, ℕ, ◌<◌, ◌^◌, ℤ, length, true, IfOk};
ghost use Rattle.pungi_domain.specs.Vectors.{at, IsWithin};
ghost use Rattle.pungi_domain.specs.Spans.{Plus, LargeRow, LargeSum};
ghost use Rattle.pungi_domain.specs.Domain.{RangeIs};
ghost use Rattle.pungi_affine.specs.Forms.{WithinBox};
ghost use Rattle.pungi_affine.specs.Parts.{wide_line};
ghost use Rattle.pungi_affine.specs.States.{SpanMember};
ghost use Rattle.pungi_affine.specs.Adds.{AddsTo, IsChange, IsPlainFor, IsJoinedSpan};

use crate::Span;
use crate::extend::extended_form;
use crate::join::{joined_rows, plain_row};
use crate::part::{WideRow, has_large, part_of};
use crate::reduce::reduced_span;
use crate::residual::{is_multiple_of_row, leaves_nothing, left_part};
use pungi_base::Seq;
use pungi_domain::DomainFault;
use std::alloc::{AllocError, Global};

/// What adding a vector does to a span.
#[derive(Drop)]
pub(crate) enum Change {
    /// The vector is in the span.
    Nothing,
    /// The row is added, and the others stay.
    Plain(WideRow),
    /// The span has other rows then.
    Other(Span),
}

/// What adding a vector up to 2^31 does to a span.
fn small_change(alloc: Global, span: &Span, v: &[i128]) -> Result<Change, DomainFault>
    requires width { length v.now ≡ span.now.width }
    requires small { WithinBox v.now }
    ensures change { IfOk result (λ c. IsChange span.now (at v.now) c) }
    ensures range { RangeIs true (LargeRow span.now.width (Plus span.now.width (SpanMember span.now) (at v.now)))
        result }
{
    let rows = span.rows.as_slice();
    if is_multiple_of_row(span.scale, rows, v) {
        return Ok(Change::Nothing);
    }
    if leaves_nothing(span.scale, rows, v) {
        return Ok(Change::Nothing);
    }
    let Some(new) = left_part(alloc, span.scale, rows, v)? else {
        return Ok(Change::Nothing);
    };
    if let Some(row) = plain_row(alloc, span.scale, rows, &new)? {
        return Ok(Change::Plain(row));
    }
    let form = extended_form(alloc, span.scale, rows, &new)?;
    let grown = reduced_span(alloc, span.width, form)?;
    Ok(Change::Other(grown))
}

/// What adding a vector does to a span.
pub(crate) fn change_by(alloc: Global, span: &Span, vector: &[i128]) -> Result<Change, DomainFault>
    requires width { length vector.now ≡ span.now.width }
    requires within { (i : ℕ) → i < length vector.now → IsWithin (2 ^ 126) (at vector.now i) }
    ensures change { IfOk result (λ c. IsChange span.now (at vector.now) c) }
    ensures range { RangeIs true (LargeSum span.now.width (SpanMember span.now) (at vector.now)) result }
{
    prove!(span.width <= 256);
    if !has_large(vector) {
        return small_change(alloc, span, vector);
    }
    let Some(part) = part_of(alloc, vector)? else {
        return Ok(Change::Nothing);
    };
    if has_large(part.entries.as_slice()) {
        return Err(DomainFault::Range(Seq::new(part.entries)));
    }
    small_change(alloc, span, part.entries.as_slice())
}

/// The span with a row that is added to the others.
pub(crate) fn with_plain(alloc: Global, span: Span, new: &WideRow) -> Result<Span, AllocError>
    requires { IsPlainFor span (wide_line new.now) }
    ensures { IfOk result (λ t. IsJoinedSpan span (wide_line new.now) t) }
{
    let Span { width, scale, rows } = span;
    let rows = joined_rows(alloc, rows, new)?;
    Ok(Span { width, scale, rows })
}

/// The span of a span and of a vector. None where the vector is in it.
pub(crate) fn with_vector(
    alloc: Global,
    span: &Span,
    vector: &[i128],
) -> Result<Option<Span>, DomainFault>
    requires width { length vector.now ≡ span.now.width }
    requires within { (i : ℕ) → i < length vector.now → IsWithin (2 ^ 126) (at vector.now i) }
    ensures adds { IfOk result (λ o. AddsTo span.now (at vector.now) o) }
    ensures range { RangeIs true (LargeSum span.now.width (SpanMember span.now) (at vector.now)) result }
{
    match change_by(alloc, span, vector)? {
        Change::Nothing => Ok(None),
        Change::Plain(new) => {
            let start = span.copy(alloc)?;
            let grown = with_plain(alloc, start, &new)?;
            Ok(Some(grown))
        }
        Change::Other(grown) => Ok(Some(grown)),
    }
}
