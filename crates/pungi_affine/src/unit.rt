//! Unit vectors, the span of all vectors, and what a freed coordinate makes of a span.
ghost use Rattle.std.specs.Prelude.{◌≡◌, ℕ, ◌<◌, ◌≤◌, ℤ, pos, length, true, IfOk};
ghost use Rattle.pungi_domain.specs.Vectors.{Vector, at};
ghost use Rattle.pungi_domain.specs.Spans.{Plus, LargeFree, unit};
ghost use Rattle.pungi_domain.specs.Domain.{RangeIs};
ghost use Rattle.pungi_affine.specs.Spans.{SameMembers};
ghost use Rattle.pungi_affine.specs.Forms.{lines, line_of};
ghost use Rattle.pungi_affine.specs.Units.{IsUnitLine, AreUnits};
ghost use Rattle.pungi_affine.specs.States.{SpanMember};

use crate::Span;
use crate::add::with_vector;
use crate::row::Row;
use crate::sum::widened;
use pungi_domain::DomainFault;
use std::alloc::{AllocError, Global};

fn unit_row(alloc: Global, width: u32, c: u32) -> Result<Row, AllocError>
    requires { c < width }
    ensures { IfOk result (λ r. IsUnitLine width c (line_of r)) }
{
    let entries = vec![in alloc; 1i64; 1]?;
    Ok(Row {
        pivot: c,
        width: width as usize,
        start: c as usize,
        entries,
    })
}

fn unit_rows(alloc: Global, width: u32) -> Result<Vec<Row>, AllocError>
    ensures { IfOk result (λ v. AreUnits width (lines v.items)) }
{
    let mut rows = Vec::new(alloc);
    for c in 0..width {
        rows.push(unit_row(alloc, width, c)?)?;
    }
    Ok(rows)
}

/// The span of all vectors.
pub(crate) fn whole(alloc: Global, width: u32) -> Result<Span, AllocError>
    requires { width ≤ 256 }
    ensures width { IfOk result (λ s. s.width ≡ width) }
    ensures members { IfOk result (λ s. (v : Vector) → SpanMember s v) }
{
    let rows = unit_rows(alloc, width)?;
    Ok(Span {
        width,
        scale: 1,
        rows,
    })
}

/// The span with the unit vector of a coordinate.
pub(crate) fn freed_span(alloc: Global, span: &Span, c: u32) -> Result<Span, DomainFault>
    requires { c < span.now.width }
    ensures width { IfOk result (λ s. s.width ≡ span.now.width) }
    ensures members { IfOk result (λ s. SameMembers (Plus span.now.width (SpanMember span.now) (unit c))
        (SpanMember s)) }
    ensures range { RangeIs true (LargeFree span.now.width c (SpanMember span.now)) result }
{
    let row = unit_row(alloc, span.width, c)?;
    let vector = widened(alloc, &row)?;
    let more = with_vector(alloc, span, vector.entries.as_slice())?;
    let Some(grown) = more else {
        return span.copy(alloc);
    };
    Ok(grown)
}
