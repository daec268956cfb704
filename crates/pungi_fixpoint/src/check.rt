ghost use Rattle.std.specs.Prelude.{◌≡◌, ℕ, ◌<◌, ℤ, List, Option, Some, true, Err, length, slice_get, OnOk};
ghost use Rattle.pungi_domain.specs.Annotations.{HaveWidths, Rows, met};
ghost use Rattle.pungi_domain.specs.Builds.{IsBuilt, IsLargeBuild};
ghost use Rattle.pungi_domain.specs.Programs.{IsWellFormed};
ghost use Rattle.pungi_domain.specs.declared.affine_edge.AffineEdge.{AffineEdge};
ghost use Rattle.pungi_fixpoint.specs.Duties.{IsBroken, IsLargeCheck, MeetsDuties, MeetsDutiesOf};
ghost use Rattle.pungi_fixpoint.specs.Duties.{stage_of};
ghost use Rattle.pungi_fixpoint.specs.Solver.{FitsWidths, HasDuty, IsBelow, sets};
ghost use Rattle.pungi_fixpoint.specs.declared.fix_fault.FixFault.TheVariants.{NotSafe, Range};

use crate::duties::fails;
use crate::fix_fault::fault_at;
use crate::{Annotation, DutyKind, FixFault};
use pungi_domain::{AffineProgram, Domain};
use std::alloc::Global;

/// Whether each duty of a kind that an edge has is met.
fn check_edge<D: Domain>(
    alloc: Global,
    program: &AffineProgram,
    annotation: &Annotation<D>,
    kind: DutyKind,
    number: usize,
) -> Result<(), FixFault>
    requires well_formed { IsWellFormed program.now }
    requires widths { FitsWidths D.width_of program.now annotation.now.at annotation.now.exits }
    requires within { number < length program.now.edges }
    ensures safe { OnOk result ((e : AffineEdge) → slice_get program.now.edges number ≡ Some e
        → MeetsDutiesOf kind (sets D.member annotation.now.at) e) }
    ensures place { (k : ℕ) → result ≡ Err (NotSafe k) → HasDuty program.now k }
    ensures fails { D.least ≡ true → (k : ℕ) → result ≡ Err (NotSafe k)
        → IsBroken kind D.least D.member program.now (stage_of annotation.now.at annotation.now.exits) }
    ensures range { (k : ℕ) (row : List ℤ) → result ≡ Err (Range k row)
        → IsLargeCheck D.least D.member program.now (stage_of annotation.now.at annotation.now.exits) k row }
{
    let edge = &program.edges.as_slice()[number];
    if !kind.includes(edge.to) {
        return Ok(());
    }
    match fails(alloc, edge, &annotation.at.as_slice()[edge.from as usize]) {
        Err(fault) => Err(fault_at(edge.from, fault)),
        Ok(true) => Err(FixFault::NotSafe(edge.from)),
        Ok(false) => Ok(()),
    }
}

/// Whether each duty of a kind is met.
fn check_edges<D: Domain>(
    alloc: Global,
    program: &AffineProgram,
    annotation: &Annotation<D>,
    kind: DutyKind,
) -> Result<(), FixFault>
    requires well_formed { IsWellFormed program.now }
    requires widths { FitsWidths D.width_of program.now annotation.now.at annotation.now.exits }
    ensures safe { OnOk result (MeetsDuties kind program.now (sets D.member annotation.now.at)) }
    ensures place { (k : ℕ) → result ≡ Err (NotSafe k) → HasDuty program.now k }
    ensures fails { D.least ≡ true → (k : ℕ) → result ≡ Err (NotSafe k)
        → IsBroken kind D.least D.member program.now (stage_of annotation.now.at annotation.now.exits) }
    ensures range { (k : ℕ) (row : List ℤ) → result ≡ Err (Range k row)
        → IsLargeCheck D.least D.member program.now (stage_of annotation.now.at annotation.now.exits) k row }
{
    for number in 0..program.edges.len() {
        check_edge(alloc, program, annotation, kind, number)?;
    }
    Ok(())
}

/// Whether an annotation meets each duty of a kind, or the first place from which an edge with one that fails leads.
///
/// Over a domain of least values `NotSafe` means that no rows which all members meet imply the duties. `Range` means
/// that meeting the guard of an edge from this place is large.
pub fn check_duties<D: Domain>(
    alloc: Global,
    program: &AffineProgram,
    annotation: &Annotation<D>,
    kind: DutyKind,
) -> Result<(), FixFault>
    requires well_formed { IsWellFormed program.now }
    requires widths { FitsWidths D.width_of program.now annotation.now.at annotation.now.exits }
    ensures safe { OnOk result (MeetsDuties kind program.now (sets D.member annotation.now.at)) }
    ensures place { (k : ℕ) → result ≡ Err (NotSafe k) → HasDuty program.now k }
    ensures not_safe { D.least ≡ true → (k : ℕ) → result ≡ Err (NotSafe k) → (rows : Rows)
        → HaveWidths program.now rows → IsBelow D.member program.now rows annotation.now.at annotation.now.exits
        → MeetsDuties kind program.now (met rows.at) → ⊥ }
    ensures range { (k : ℕ) (row : List ℤ) → result ≡ Err (Range k row) → (exit : ℕ → ℕ → Option D)
        → IsBuilt D.least D.member program.now exit (stage_of annotation.now.at annotation.now.exits)
        → IsLargeBuild D.least D.member program.now exit k row }
{
    check_edges(alloc, program, annotation, kind)
}
