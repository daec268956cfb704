ghost use Rattle.std.specs.Prelude.{◌≡◌, ℕ, ◌+◌, ◌<◌, ◌≤◌, ◌^◌, ℤ, pos, [], true, false, length, take, IfOk, OnOk};
ghost use Rattle.std.specs.Prelude.{OnErr};
ghost use Rattle.pungi_domain.specs.Vectors.{Vector, at, dot, IsEquation, IsWithin, Meeting, Freed, Either, Follows};
ghost use Rattle.pungi_domain.specs.Domain.{RangeIs};
ghost use Rattle.pungi_domain.specs.Spans.{Never, Plus, LargeSum, LargeFree, LargeMeet, LargeGrow};
ghost use Rattle.pungi_affine.specs.Spans.{IsDimension, SameMembers};
ghost use Rattle.pungi_affine.specs.Forms.{lines, WithinBox, line_of};
ghost use Rattle.pungi_affine.specs.States.{SpanMember, span_rank};
ghost use Rattle.pungi_affine.specs.SpanLaws.{span_same, span_zero, span_sum};
ghost use Rattle.std.proofs.Common.{refl};

use crate::add::with_vector;
use crate::image::image_span;
use crate::meet::meeting_span;
use crate::row::{Row, rows_meet};
use crate::sum::{Grown, with_span};
use crate::unit::{freed_span, whole};
use pungi_domain::{Domain, DomainFault, Equation, LeastDomain, Matrix};
use std::alloc::{AllocError, Global};
use std::marker::Model;

/// The vectors that fulfil some homogeneous linear equations over the fractions, as the span of scaled rows.
///
/// It describes at most 256 coordinates. A row has entries up to 2^31 in absolute value.
#[derive(Drop)]
pub struct Span {
    pub(crate) width: u32,
    pub(crate) scale: i64,
    pub(crate) rows: Vec<Row>,
}

impl Model for Span {
    ghost use Rattle.pungi_affine.specs.Forms.{lines};
    ghost use Rattle.pungi_affine.specs.States.{SpanState, IsKept};

    ghost Value = { SpanState };

    ghost view = { λ s. record { width = s.width; scale = s.scale; lines = lines s.rows.items } };

    ghost invariant = { λ s. IsKept s.width s.scale (lines s.rows.items) };
}

fn copied(alloc: Global, row: &Row) -> Result<Row, AllocError>
    ensures { IfOk result (λ r. line_of r ≡ line_of row.now) }
{
    let entries = Vec::from_slice(alloc, row.entries.as_slice())?;
    Ok(Row {
        pivot: row.pivot,
        width: row.width,
        start: row.start,
        entries,
    })
}

/// The same rows.
fn copied_rows(alloc: Global, rows: &[Row]) -> Result<Vec<Row>, AllocError>
    ensures { IfOk result (λ v. lines v.items ≡ lines rows.now) }
{
    let mut copies = Vec::with_capacity(alloc, rows.len())?;
    for row in rows {
        copies.push(copied(alloc, row)?)?;
    }
    Ok(copies)
}

impl Span {
    /// The span of no vectors: it has the vector 0 alone.
    pub fn none(alloc: Global, width: u32) -> Result<Span, DomainFault>
        requires { width ≤ 256 }
        ensures value { IfOk result (λ s. s ≡ record { width = width; scale = pos 1; lines = [] }) }
        ensures range { RangeIs true Never result }
    {
        Ok(Span {
            width,
            scale: 1,
            rows: Vec::new(alloc),
        })
    }

    /// The same span.
    pub fn copy(&self, alloc: Global) -> Result<Span, DomainFault>
        ensures same { IfOk result (λ s. s ≡ self.now) }
        ensures range { RangeIs true Never result }
    {
        let rows = copied_rows(alloc, self.rows.as_slice())?;
        Ok(Span {
            width: self.width,
            scale: self.scale,
            rows,
        })
    }

    /// The span of all vectors.
    pub fn any(alloc: Global, width: u32) -> Result<Span, DomainFault>
        requires { width ≤ 256 }
        ensures width { IfOk result (λ s. s.width ≡ width) }
        ensures members { IfOk result (λ s. (v : Vector) → SpanMember s v) }
        ensures range { RangeIs true Never result }
    {
        let span = whole(alloc, width)?;
        Ok(span)
    }

    /// The least span that has the vectors of this one, with any number at a coordinate.
    pub fn free(&self, alloc: Global, coordinate: u32) -> Result<Span, DomainFault>
        requires { coordinate < self.now.width }
        ensures width { IfOk result (λ s. s.width ≡ self.now.width) }
        ensures members { IfOk result (λ s. (v : Vector) → Freed coordinate (SpanMember self.now) v → SpanMember s v) }
        ensures least { IfOk result (λ s. Follows self.now.width (Freed coordinate (SpanMember self.now))
            (SpanMember s)) }
        ensures range { RangeIs true (LargeFree self.now.width coordinate (SpanMember self.now)) result }
    {
        freed_span(alloc, self, coordinate)
    }

    /// The span of the vectors that meet an equation.
    pub fn meet(&self, alloc: Global, equation: &Equation) -> Result<Span, DomainFault>
        requires { IsEquation self.now.width equation.now.coefficients }
        ensures width { IfOk result (λ s. s.width ≡ self.now.width) }
        ensures members { IfOk result (λ s. SameMembers (Meeting equation.now.coefficients (SpanMember self.now))
            (SpanMember s)) }
        ensures range { RangeIs true (LargeMeet self.now.width equation.now.coefficients (SpanMember self.now)) result }
    {
        meeting_span(alloc, self, equation)
    }

    /// Takes in the vectors of another span, and returns whether that changed anything.
    pub fn grow(&mut self, alloc: Global, from: &Span) -> Result<bool, DomainFault>
        requires { from.now.width ≡ self.old.width }
        ensures width { self.new.width ≡ self.old.width }
        ensures kept { (v : Vector) → SpanMember self.old v → SpanMember self.new v }
        ensures taken { OnOk result ((v : Vector) → SpanMember from.now v → SpanMember self.new v) }
        ensures unchanged { result ≡ Ok false → self.new ≡ self.old }
        ensures rose { result ≡ Ok true → length self.old.lines < length self.new.lines }
        ensures bounded { length self.new.lines ≤ self.new.width }
        ensures least { OnOk result (Follows self.old.width (Either (SpanMember self.old) (SpanMember from.now))
            (SpanMember self.new)) }
        ensures range { RangeIs true (LargeGrow self.old.width (SpanMember self.old) (SpanMember from.now)) result }
        ensures err { OnErr result (self.new ≡ self.old) }
    {
        prove!(self.width <= 256 && from.width <= 256);
        let Grown { span, changed } = with_span(alloc, self, from)?;
        *self = span;
        Ok(changed)
    }

    /// Takes in a vector, and returns false where it was in the span.
    pub fn add_vector(&mut self, alloc: Global, vector: &[i128]) -> Result<bool, DomainFault>
        requires width { length vector.now ≡ self.old.width }
        requires within { (i : ℕ) → i < length vector.now → IsWithin (2 ^ 126) (at vector.now i) }
        ensures width { self.new.width ≡ self.old.width }
        ensures members { OnOk result (SameMembers (Plus self.old.width (SpanMember self.old) (at vector.now))
            (SpanMember self.new)) }
        ensures unchanged { result ≡ Ok false → (self.new ≡ self.old) × SpanMember self.old (at vector.now) }
        ensures grew { result ≡ Ok true → (length self.new.lines ≡ length self.old.lines + 1)
            × (SpanMember self.old (at vector.now) → ⊥) }
        ensures range { RangeIs true (LargeSum self.old.width (SpanMember self.old) (at vector.now)) result }
        ensures err { OnErr result (self.new ≡ self.old) }
    {
        let Some(grown) = with_vector(alloc, self, vector)? else {
            return Ok(false);
        };
        *self = grown;
        Ok(true)
    }

    /// How many pivots the span has: coordinates at which some vector of it has its first entry other than 0.
    pub fn dimension(&self) -> u32
        ensures { IsDimension self.now.width (SpanMember self.now) result }
    {
        self.rows.len() as u32
    }

    /// Whether all vectors of the span meet an equation.
    pub fn holds(&self, equation: &Equation) -> bool
        requires { IsEquation self.now.width equation.now.coefficients }
        ensures members { result ≡ true → (v : Vector) → SpanMember self.now v
            → dot equation.now.coefficients v ≡ pos 0 }
        ensures least { result ≡ false → (v : Vector) × SpanMember self.now v
            × (dot equation.now.coefficients v ≡ pos 0 → ⊥) }
    {
        rows_meet(self.rows.as_slice(), equation.coefficients.as_slice())
    }
}

impl Domain for Span {
    ghost least = { true };

    ghost width_of = { λ s. s.width };

    ghost member = { SpanMember };

    ghost rank = { span_rank };

    fn none(alloc: Global, width: u32) -> Result<Span, DomainFault> {
        let span = Span::none(alloc, width)?;
        Ok(span)
    }

    fn any(alloc: Global, width: u32) -> Result<Span, DomainFault> {
        Span::any(alloc, width)
    }

    fn copy(&self, alloc: Global) -> Result<Span, DomainFault> {
        Span::copy(self, alloc)
    }

    fn grow(&mut self, alloc: Global, from: &Span) -> Result<bool, DomainFault> {
        Span::grow(self, alloc, from)
    }

    fn map(&self, alloc: Global, matrix: &Matrix) -> Result<Span, DomainFault> {
        image_span(alloc, self, matrix)
    }

    fn free(&self, alloc: Global, coordinate: u32) -> Result<Span, DomainFault> {
        Span::free(self, alloc, coordinate)
    }

    fn meet(&self, alloc: Global, equation: &Equation) -> Result<Span, DomainFault> {
        let span = Span::meet(self, alloc, equation)?;
        Ok(span)
    }

    fn holds(&self, equation: &Equation) -> bool {
        Span::holds(self, equation)
    }

    ghost same = { span_same };

    ghost zero = { span_zero };

    ghost sum = { span_sum };
}

impl LeastDomain for Span {
    ghost is_least = { refl };
}
