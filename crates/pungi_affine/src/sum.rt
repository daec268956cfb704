//! Adding vectors to a span, one after the other.
ghost use Rattle.std.specs.Prelude.{◌≡◌, ℕ, ◌<◌, ◌^◌, ℤ, length, map, true, false, IfOk};
ghost use Rattle.pungi_domain.specs.Vectors.{at, IsWithin};
ghost use Rattle.pungi_domain.specs.Spans.{LargeSum, LargeSums, LargeGrow};
ghost use Rattle.pungi_domain.specs.Domain.{RangeIs};
ghost use Rattle.pungi_affine.specs.Forms.{lines};
ghost use Rattle.pungi_affine.specs.Rows.{row_entries};
ghost use Rattle.pungi_affine.specs.States.{SpanMember};
ghost use Rattle.pungi_affine.specs.Sums.{IsStep, IsSum, row_vectors, given_vectors, given_at};

use crate::Span;
use crate::add::{Change, change_by, with_plain};
use crate::row::Row;
use pungi_domain::DomainFault;
use std::alloc::{AllocError, Global};

/// A vector to be added.
#[derive(Drop)]
pub(crate) struct Given {
    pub(crate) entries: Vec<i128>,
}

/// A span to which vectors were added, and whether that changed it.
#[derive(Drop)]
pub(crate) struct Grown {
    pub(crate) span: Span,
    pub(crate) changed: bool,
}

fn step(alloc: Global, grown: Grown, vector: &Given) -> Result<Grown, DomainFault>
    requires width { length vector.now.entries.items ≡ grown.span.width }
    requires within { (i : ℕ) → i < length vector.now.entries.items
        → IsWithin (2 ^ 126) (at vector.now.entries.items i) }
    ensures step { IfOk result (λ g. IsStep grown.span grown.changed (at vector.now.entries.items) g.span g.changed) }
    ensures range { RangeIs true (LargeSum grown.span.width (SpanMember grown.span) (at vector.now.entries.items))
        result }
{
    match change_by(alloc, &grown.span, vector.entries.as_slice())? {
        Change::Nothing => Ok(grown),
        Change::Plain(new) => {
            let span = with_plain(alloc, grown.span, &new)?;
            Ok(Grown {
                span,
                changed: true,
            })
        }
        Change::Other(span) => Ok(Grown {
            span,
            changed: true,
        }),
    }
}

/// The span with the vectors added in order.
pub(crate) fn with_all(alloc: Global, span: Span, vectors: &[Given]) -> Result<Grown, DomainFault>
    requires widths { (k : ℕ) → k < length vectors.now → length (given_at vectors.now k) ≡ span.width }
    requires within { (k : ℕ) → k < length vectors.now → (i : ℕ) → i < length (given_at vectors.now k)
        → IsWithin (2 ^ 126) (at (given_at vectors.now k) i) }
    ensures sum { IfOk result (λ g. IsSum span (given_vectors vectors.now) g.span g.changed) }
    ensures range { RangeIs true (LargeSums span.width (SpanMember span) (given_vectors vectors.now)) result }
{
    let mut grown = Grown {
        span,
        changed: false,
    };
    for vector in vectors {
        grown = step(alloc, grown, vector)?;
    }
    Ok(grown)
}

pub(crate) fn widened(alloc: Global, row: &Row) -> Result<Given, AllocError>
    ensures { IfOk result (λ g. g.entries.items ≡ row_entries row.now) }
{
    let mut entries = Vec::with_capacity(alloc, row.width)?;
    for i in 0..row.width {
        entries.push(i128::from(row.entry(i)))?;
    }
    Ok(Given { entries })
}

/// The rows of a span as vectors to be added.
pub(crate) fn widened_rows(alloc: Global, rows: &[Row]) -> Result<Vec<Given>, AllocError>
    ensures { IfOk result (λ v. map (λ g. g.entries.items) v.items ≡ map (λ l. l.entries) (lines rows.now)) }
{
    let mut given = Vec::with_capacity(alloc, rows.len())?;
    for row in rows {
        given.push(widened(alloc, row)?)?;
    }
    Ok(given)
}

/// The span with the rows of another one, added one after the other.
fn with_rows(alloc: Global, span: &Span, from: &Span) -> Result<Grown, DomainFault>
    requires { from.now.width ≡ span.now.width }
    ensures sum { IfOk result (λ g. IsSum span.now (row_vectors from.now.lines) g.span g.changed) }
    ensures range { RangeIs true (LargeGrow span.now.width (SpanMember span.now) (SpanMember from.now)) result }
{
    let vectors = widened_rows(alloc, from.rows.as_slice())?;
    let start = span.copy(alloc)?;
    with_all(alloc, start, vectors.as_slice())
}

/// The span with no rows and those of another one: they are copied.
fn with_copies(alloc: Global, span: &Span, from: &Span) -> Result<Grown, DomainFault>
    requires width { from.now.width ≡ span.now.width }
    requires none { length span.now.lines ≡ 0 }
    requires some { 0 < length from.now.lines }
    ensures sum { IfOk result (λ g. IsSum span.now (row_vectors from.now.lines) g.span g.changed) }
    ensures range { RangeIs true (LargeGrow span.now.width (SpanMember span.now) (SpanMember from.now)) result }
{
    let _ = &from.rows;
    let span = from.copy(alloc)?;
    Ok(Grown {
        span,
        changed: true,
    })
}

/// How many rows a span has.
fn rank(span: &Span) -> usize
    ensures { result ≡ length span.now.lines }
{
    span.rows.len()
}

/// The span with the rows of another one.
pub(crate) fn with_span(alloc: Global, span: &Span, from: &Span) -> Result<Grown, DomainFault>
    requires { from.now.width ≡ span.now.width }
    ensures sum { IfOk result (λ g. IsSum span.now (row_vectors from.now.lines) g.span g.changed) }
    ensures range { RangeIs true (LargeGrow span.now.width (SpanMember span.now) (SpanMember from.now)) result }
{
    if rank(span) == 0 && rank(from) > 0 {
        return with_copies(alloc, span, from);
    }
    with_rows(alloc, span, from)
}
