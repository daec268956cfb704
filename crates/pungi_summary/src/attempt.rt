ghost use Rattle.std.specs.Prelude.{◌≡◌, ℕ, ◌<◌, ℤ, List, [], Option, true, false, Err, length, IfOk};
ghost use Rattle.std.specs.List.{slice_index_or};
ghost use Rattle.pungi_domain.specs.Builds.{IsBuilt, IsLargeBuild};
ghost use Rattle.pungi_domain.specs.Programs.{IsWellFormed};
ghost use Rattle.pungi_fixpoint.specs.Duties.{stage_of};
ghost use Rattle.pungi_fixpoint.specs.Solver.{FitsExits, FitsWidths};
ghost use Rattle.pungi_fixpoint.specs.declared.duty_kind.DutyKind.TheVariants.{OfPlaces, OfExits};
ghost use Rattle.pungi_fixpoint.specs.declared.fix_fault.FixFault.TheVariants.{Range};
ghost use Rattle.pungi_summary.specs.Results.{AreValues};
ghost use Rattle.pungi_summary.specs.Steps.{HasRangePlace, IsFailing, IsLargeStep, IsStep};
ghost use Rattle.pungi_summary.specs.Values.{AreGrown, FitGrowth, LargeGrowth, exits_room};

use crate::failing::Failing;
use crate::first_entry::first_entry;
use crate::step::Step;
use crate::values::{ExitsWith, all_taken_in};
use pungi_domain::{AffineProgram, Domain, DomainFault};
use pungi_fixpoint::{Annotation, DutyKind, FixFault, Summaries, annotate, check_duties};
use std::alloc::Global;

/// The first place from which an edge with a duty of this kind that fails leads, if one does.
fn failing_duty<D: Domain>(
    alloc: Global,
    program: &AffineProgram,
    annotation: &Annotation<D>,
    kind: DutyKind,
) -> Result<Option<u32>, FixFault>
    requires well_formed { IsWellFormed program.now }
    requires widths { FitsWidths D.width_of program.now annotation.now.at annotation.now.exits }
    ensures failing { IfOk result (IsFailing kind D.least D.member program.now annotation.now.at
        annotation.now.exits) }
    ensures range { (k : ℕ) (row : List ℤ) → result ≡ Err (Range k row) → (exit : ℕ → ℕ → Option D)
        → IsBuilt D.least D.member program.now exit (stage_of annotation.now.at annotation.now.exits)
        → IsLargeBuild D.least D.member program.now exit k row }
{
    match check_duties(alloc, program, annotation, kind) {
        Ok(()) => Ok(None),
        Err(FixFault::NotSafe(place)) => Ok(Some(place)),
        Err(fault) => Err(fault),
    }
}

/// The duties that fail, of either kind.
fn failing_duties<D: Domain>(
    alloc: Global,
    program: &AffineProgram,
    annotation: &Annotation<D>,
) -> Result<Failing, FixFault>
    requires well_formed { IsWellFormed program.now }
    requires widths { FitsWidths D.width_of program.now annotation.now.at annotation.now.exits }
    ensures places { IfOk result (λ f. IsFailing OfPlaces D.least D.member program.now annotation.now.at
        annotation.now.exits f.places) }
    ensures exits { IfOk result (λ f. IsFailing OfExits D.least D.member program.now annotation.now.at
        annotation.now.exits f.exits) }
    ensures range { (k : ℕ) (row : List ℤ) → result ≡ Err (Range k row) → (exit : ℕ → ℕ → Option D)
        → IsBuilt D.least D.member program.now exit (stage_of annotation.now.at annotation.now.exits)
        → IsLargeBuild D.least D.member program.now exit k row }
{
    let places = failing_duty(alloc, program, annotation, DutyKind::OfPlaces)?;
    let exits = failing_duty(alloc, program, annotation, DutyKind::OfExits)?;
    Ok(Failing { places, exits })
}

/// Takes the exits of an annotation in.
fn exits_with_annotation<D: Domain>(
    alloc: Global,
    program: &AffineProgram,
    summaries: &Summaries<D>,
    f: u32,
    annotation: &Annotation<D>,
) -> Result<ExitsWith<D>, FixFault>
    requires there { f < length summaries.now.exits }
    requires fits { FitGrowth D.width_of (slice_index_or summaries.now.exits f []) annotation.now.exits }
    ensures grown { IfOk result (λ g. AreGrown D.least D.member D.width_of (slice_index_or summaries.now.exits f [])
        annotation.now.exits g.values) }
    ensures rose { IfOk result (λ g. g.grew ≡ true → exits_room D.width_of D.rank g.values
        < exits_room D.width_of D.rank (slice_index_or summaries.now.exits f [])) }
    ensures unchanged { IfOk result (λ g. g.grew ≡ false → g.values ≡ slice_index_or summaries.now.exits f []) }
    ensures range { (k : ℕ) (row : List ℤ) → result ≡ Err (Range k row) → HasRangePlace program.now k
        × LargeGrowth D.width_of D.member (slice_index_or summaries.now.exits f []) annotation.now.exits row }
{
    match all_taken_in(alloc, summaries.exits(f), annotation.exits.as_slice()) {
        Ok(grown) => Ok(grown),
        Err(DomainFault::Range(row)) => Err(FixFault::Range(first_entry(program), row)),
        Err(DomainFault::Memory) => Err(FixFault::Memory),
    }
}

/// Annotates a function under the exits as they are, and takes its exits in.
pub(crate) fn attempt<D: Domain>(
    alloc: Global,
    program: &AffineProgram,
    summaries: &Summaries<D>,
    f: u32,
) -> Result<Step<D>, FixFault>
    requires well_formed { IsWellFormed program.now }
    requires there { f < length summaries.now.exits }
    requires fits { FitsExits D.width_of summaries.now.exits program.now }
    requires values { AreValues D.width_of program.now.exits (slice_index_or summaries.now.exits f []) }
    ensures step { IfOk result (λ s. IsStep D.least D.member D.width_of program.now summaries.now.exits f s.failing
        s.exits) }
    ensures rose { IfOk result (λ s. s.grew ≡ true → exits_room D.width_of D.rank s.exits
        < exits_room D.width_of D.rank (slice_index_or summaries.now.exits f [])) }
    ensures unchanged { IfOk result (λ s. s.grew ≡ false → s.exits ≡ slice_index_or summaries.now.exits f []) }
    ensures range { (k : ℕ) (row : List ℤ) → result ≡ Err (Range k row) → HasRangePlace program.now k
        × IsLargeStep D.least D.member D.width_of program.now summaries.now.exits f row }
{
    let annotation = annotate(alloc, program, summaries)?;
    let failing = failing_duties(alloc, program, &annotation)?;
    let grown = exits_with_annotation(alloc, program, summaries, f, &annotation)?;
    let ExitsWith { values, grew } = grown;
    Ok(Step {
        failing,
        exits: values,
        grew,
    })
}
