ghost use Rattle.std.specs.Prelude.{◌≡◌, ◌+◌, ◌-◌, ◌<◌, ◌≤◌, Ok, Some, true, false, length, slice_get, IfOk, OnOk};
ghost use Rattle.std.specs.Prelude.{OnErr};
ghost use Rattle.std.specs.List.{All, sum_by};
ghost use Rattle.pungi_domain.specs.Builds.{IsFirst, span_at};
ghost use Rattle.pungi_domain.specs.Programs.{IsWellFormed};
ghost use Rattle.pungi_domain.specs.Spans.{LargeGrow, Never};
ghost use Rattle.pungi_fixpoint.specs.Solver.{FitsWidths};
ghost use Rattle.pungi_fixpoint.specs.Stages.{AreEntered, AreNothing, IsGrownAt};
ghost use Rattle.pungi_fixpoint.specs.Turns.{IsGrown, RangeOnly, room};

use pungi_domain::{AffineProgram, Domain, DomainFault, Target};
use std::alloc::Global;
use std::marker::Model;

/// The values of all places and exit classes at a moment.
#[derive(Drop)]
pub(crate) struct Stage<D: Drop> {
    pub(crate) at: Vec<D>,
    pub(crate) exits: Vec<D>,
}

impl<D: Drop> Model for Stage<D> {
    ghost use Rattle.pungi_domain.specs.Builds.{Stage};

    ghost Value = { Stage D };

    ghost view = { λ s. record { at = s.at.items; exits = s.exits.items } };
}

/// The values of no vectors, with these widths.
fn nothing<D: Domain>(alloc: Global, widths: &[u32]) -> Result<Vec<D>, DomainFault>
    requires { All (λ w. w ≤ 256) widths.now }
    ensures values { IfOk result (λ v. AreNothing D.least D.member D.width_of widths.now v.items) }
    ensures range { RangeOnly Never result }
{
    let mut values = Vec::new(alloc);
    for width in widths {
        values.push(D::none(alloc, *width)?)?;
    }
    Ok(values)
}

/// The values of no vectors, but at the entries of every vector.
fn entered<D: Domain>(alloc: Global, widths: &[u32], entries: &[u32]) -> Result<Vec<D>, DomainFault>
    requires widths { All (λ w. w ≤ 256) widths.now }
    requires entries { All (λ k. k < length widths.now) entries.now }
    ensures values { IfOk result (λ v. AreEntered D.least D.member D.width_of widths.now entries.now v.items) }
    ensures range { RangeOnly Never result }
{
    let mut values = nothing(alloc, widths)?;
    for k in entries {
        values[*k as usize] = D::any(alloc, widths[*k as usize])?;
    }
    Ok(values)
}

/// Takes a value in at a number of the list, and returns whether that changed anything.
fn grow_at<D: Domain>(
    values: &mut Vec<D>,
    alloc: Global,
    k: usize,
    value: &D,
) -> Result<bool, DomainFault>
    requires within { (t : D) × (slice_get values.old.items k ≡ Some t) × (D.width_of t ≡ D.width_of value.now) }
    ensures grown { OnOk result (IsGrownAt D.least D.member D.width_of values.old.items k value.now values.new.items) }
    ensures rose { result ≡ Ok true → sum_by (λ d. D.width_of d + 1 - D.rank d) values.new.items
        < sum_by (λ d. D.width_of d + 1 - D.rank d) values.old.items }
    ensures unchanged { result ≡ Ok false → values.new.items ≡ values.old.items }
    ensures err { OnErr result (values.new.items ≡ values.old.items) }
    ensures range { RangeOnly (λ r. (t : D) × (slice_get values.old.items k ≡ Some t)
        × LargeGrow (D.width_of t) (D.member t) (D.member value.now) r) result }
{
    values[k].grow(alloc, value)
}

impl<D: Domain> Stage<D> {
    /// Every vector at the entries, and no others.
    pub(crate) fn first(alloc: Global, program: &AffineProgram) -> Result<Stage<D>, DomainFault>
        requires { IsWellFormed program.now }
        ensures first { IfOk result (IsFirst D.least D.member program.now) }
        ensures widths { IfOk result (λ s. FitsWidths D.width_of program.now s.at s.exits) }
        ensures range { RangeOnly Never result }
    {
        let at = entered(alloc, program.widths.as_slice(), program.entries.as_slice())?;
        let exits = nothing(alloc, program.exits.as_slice())?;
        Ok(Stage { at, exits })
    }

    /// The value of a place.
    pub(crate) fn place(&self, k: u32) -> &D
        requires { k < length self.now.at }
        ensures { slice_get self.now.at k ≡ Some result.now }
    {
        &self.at[k as usize]
    }

    /// Takes a value in at the target, and returns whether that changed anything.
    pub(crate) fn grow(&mut self, alloc: Global, to: Target, value: &D) -> Result<bool, DomainFault>
        requires within { (t : D) × (span_at self.old to ≡ Some t) × (D.width_of t ≡ D.width_of value.now) }
        ensures grown { OnOk result (IsGrown D.least D.member D.width_of self.old to value.now self.new) }
        ensures rose { result ≡ Ok true → room D.width_of D.rank self.new < room D.width_of D.rank self.old }
        ensures unchanged { result ≡ Ok false → self.new ≡ self.old }
        ensures err { OnErr result (self.new ≡ self.old) }
        ensures range { RangeOnly (λ r. (t : D) × (span_at self.old to ≡ Some t)
            × LargeGrow (D.width_of t) (D.member t) (D.member value.now) r) result }
    {
        match to {
            Target::Place(k) => grow_at(&mut self.at, alloc, k as usize, value),
            Target::Exit(k) => grow_at(&mut self.exits, alloc, k as usize, value),
        }
    }
}
