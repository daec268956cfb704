//! The span of a form.
ghost use Rattle.std.specs.Prelude.{◌≡◌, ℕ, ◌<◌, ℤ, pos, length, true, IfOk};
ghost use Rattle.pungi_domain.specs.Vectors.{at};
ghost use Rattle.pungi_domain.specs.Spans.{LargeRow};
ghost use Rattle.pungi_domain.specs.Domain.{RangeIs};
ghost use Rattle.pungi_affine.specs.Spans.{InSpan, SameMembers};
ghost use Rattle.pungi_affine.specs.Forms.{line, vectors};
ghost use Rattle.pungi_affine.specs.Parts.{wide_lines, AreLong, IsPart};
ghost use Rattle.pungi_affine.specs.WideForms.{IsWideForm};
ghost use Rattle.pungi_affine.specs.States.{SpanMember, IsKept};

use crate::Span;
use crate::form::{WideForm, large_row, least_form, narrowed_rows};
use crate::part::{WideRow, part_at};
use pungi_base::Seq;
use pungi_domain::DomainFault;
use std::alloc::{AllocError, Global};

/// A row without the common divisor of its entries.
fn row_part(alloc: Global, row: &WideRow) -> Result<Vec<i128>, AllocError>
    requires long { AreLong row.now.entries.items }
    requires within { row.now.pivot < length row.now.entries.items }
    requires entry { at row.now.entries.items row.now.pivot ≡ pos 0 → ⊥ }
    ensures { IfOk result (λ v. IsPart row.now.entries.items row.now.pivot v.items) }
{
    let entries = Vec::from_slice(alloc, row.entries.as_slice())?;
    Ok(part_at(entries, row.pivot as usize))
}

/// The span of a form that may be kept.
fn kept_span(alloc: Global, width: u32, form: &WideForm) -> Result<Span, AllocError>
    requires { IsKept width form.now.scale (wide_lines form.now.rows.items) }
    ensures { IfOk result (λ s. s ≡ record {
      width = width;
      scale = form.now.scale;
      lines = wide_lines
          form.now.rows.items;
    }) }
{
    let rows = narrowed_rows(alloc, form.rows.as_slice())?;
    Ok(Span {
        width,
        scale: form.scale as i64,
        rows,
    })
}

/// The span of a form's rows.
pub(crate) fn reduced_span(alloc: Global, width: u32, form: WideForm) -> Result<Span, DomainFault>
    requires { IsWideForm width form.scale (wide_lines form.rows.items) }
    ensures width { IfOk result (λ s. s.width ≡ width) }
    ensures count { IfOk result (λ s. length s.lines ≡ length (wide_lines form.rows.items)) }
    ensures members { IfOk result (λ s. SameMembers (InSpan width (vectors (wide_lines form.rows.items)))
        (SpanMember s)) }
    ensures range { RangeIs true (LargeRow width (InSpan width (vectors (wide_lines form.rows.items)))) result }
{
    let least = least_form(alloc, width, form)?;
    if let Some(k) = large_row(least.rows.as_slice()) {
        let part = row_part(alloc, &least.rows[k])?;
        return Err(DomainFault::Range(Seq::new(part)));
    }
    let span = kept_span(alloc, width, &least)?;
    Ok(span)
}
