ghost use Rattle.std.specs.Prelude.{◌≡◌, ℕ, ℤ, List, true, Err, IfOk};
ghost use Rattle.pungi_domain.specs.Annotations.{IsInductive, IsSafe, IsSafeAnnotation, Rows, HaveWidths, met};
ghost use Rattle.pungi_domain.specs.Builds.{IsBuilt, IsLargeBuild};
ghost use Rattle.pungi_domain.specs.Programs.{IsWellFormed};
ghost use Rattle.pungi_fixpoint.specs.Duties.{stage_of};
ghost use Rattle.pungi_fixpoint.specs.Solver.{FitsExits, FitsWidths, HasDuty, IsBelow, calls, sets};
ghost use Rattle.pungi_fixpoint.specs.Summaries.{exit_of};
ghost use Rattle.pungi_fixpoint.specs.declared.fix_fault.FixFault.TheVariants.{NotSafe, Range};

use crate::check::check_duties;
use crate::fix_fault::fault_at;
use crate::settle::settle;
use crate::stage::Stage;
use crate::{Annotation, DutyKind, FixFault, Summaries};
use pungi_base::Seq;
use pungi_domain::{AffineProgram, Domain};
use std::alloc::Global;

/// The values, as an annotation.
fn annotation_of<D: Domain>(stage: Stage<D>) -> Annotation<D>
    ensures at { result.at ≡ stage.at }
    ensures exits { result.exits ≡ stage.exits }
{
    let Stage { at, exits } = stage;
    Annotation {
        at: Seq::new(at),
        exits: Seq::new(exits),
    }
}

/// An inductive annotation of the program, where a call of a function finds at each exit class what the summaries have
/// for it: no vector where nothing was put. Duties are not looked at.
///
/// It is that of a build with these exits. Over a domain of least values it is the least annotation, and `Range` comes
/// only where some order of the edges leads to a large step.
pub fn annotate<D: Domain>(
    alloc: Global,
    program: &AffineProgram,
    summaries: &Summaries<D>,
) -> Result<Annotation<D>, FixFault>
    requires well_formed { IsWellFormed program.now }
    requires fits { FitsExits D.width_of summaries.now.exits program.now }
    ensures widths { IfOk result (λ a. FitsWidths D.width_of program.now a.at a.exits) }
    ensures built { IfOk result (λ a. IsBuilt D.least D.member program.now (exit_of summaries.now.exits)
        (stage_of a.at a.exits)) }
    ensures inductive { IfOk result (λ a. IsInductive program.now (calls D.member summaries.now.exits)
        (sets D.member a.at) (sets D.member a.exits)) }
    ensures least { D.least ≡ true → IfOk result (λ a. (rows : Rows) → HaveWidths program.now rows
        → IsInductive program.now (calls D.member summaries.now.exits) (met rows.at) (met rows.exits)
        → IsBelow D.member program.now rows a.at a.exits) }
    ensures not_safe { (k : ℕ) → result ≡ Err (NotSafe k) → ⊥ }
    ensures range { (k : ℕ) (row : List ℤ) → result ≡ Err (Range k row)
        → IsLargeBuild D.least D.member program.now (exit_of summaries.now.exits) k row }
{
    let mut stage = match Stage::first(alloc, program) {
        Ok(stage) => stage,
        Err(fault) => return Err(fault_at(0, fault)),
    };
    settle(alloc, program, summaries, &mut stage)?;
    Ok(annotation_of(stage))
}

/// An annotation of the program that is inductive and safe, where a call of a function finds at each exit class what
/// the summaries have for it: no vector where nothing was put.
///
/// Over a domain of least values it is the least annotation, `NotSafe` means that none is safe, and `Range` comes only
/// where some order of the edges leads to a large step.
pub fn solve<D: Domain>(
    alloc: Global,
    program: &AffineProgram,
    summaries: &Summaries<D>,
) -> Result<Annotation<D>, FixFault>
    requires well_formed { IsWellFormed program.now }
    requires fits { FitsExits D.width_of summaries.now.exits program.now }
    ensures widths { IfOk result (λ a. FitsWidths D.width_of program.now a.at a.exits) }
    ensures inductive { IfOk result (λ a. IsInductive program.now (calls D.member summaries.now.exits)
        (sets D.member a.at) (sets D.member a.exits)) }
    ensures safe { IfOk result (λ a. IsSafe program.now (sets D.member a.at)) }
    ensures least { D.least ≡ true → IfOk result (λ a. (rows : Rows) → HaveWidths program.now rows
        → IsInductive program.now (calls D.member summaries.now.exits) (met rows.at) (met rows.exits)
        → IsBelow D.member program.now rows a.at a.exits) }
    ensures place { (k : ℕ) → result ≡ Err (NotSafe k) → HasDuty program.now k }
    ensures not_safe { D.least ≡ true → (k : ℕ) → result ≡ Err (NotSafe k) → (rows : Rows)
        → IsSafeAnnotation program.now (calls D.member summaries.now.exits) rows → ⊥ }
    ensures range { (k : ℕ) (row : List ℤ) → result ≡ Err (Range k row)
        → IsLargeBuild D.least D.member program.now (exit_of summaries.now.exits) k row }
{
    let annotation = annotate(alloc, program, summaries)?;
    check_duties(alloc, program, &annotation, DutyKind::OfPlaces)?;
    check_duties(alloc, program, &annotation, DutyKind::OfExits)?;
    Ok(annotation)
}
