ghost use Rattle.std.specs.Prelude.{◌≡◌, ℕ, ◌+◌, ◌≤◌, ◌<◌, ◌∷◌, ℤ, List, Err, Some, length, slice_get, IfOk, OnOk};
ghost use Rattle.std.specs.List.{All};
ghost use Rattle.pungi_domain.specs.Builds.{IsBuilt, IsFirst, IsLargeBuild};
ghost use Rattle.pungi_domain.specs.Programs.{IsTarget, IsWellFormed};
ghost use Rattle.pungi_domain.specs.declared.affine_edge.AffineEdge.{AffineEdge};
ghost use Rattle.pungi_domain.specs.declared.target.Target.TheVariants.{Place};
ghost use Rattle.pungi_fixpoint.specs.Solver.{FitsExits, FitsWidths, calls};
ghost use Rattle.pungi_fixpoint.specs.Summaries.{exit_of};
ghost use Rattle.pungi_fixpoint.specs.Turns.{IsIndex, RangeOnly, Takes};
ghost use Rattle.pungi_fixpoint.specs.Worklist.{AreLeft, AreTaken, IsSearching, work};
ghost use Rattle.pungi_fixpoint.specs.declared.fix_fault.FixFault.TheVariants.{NotSafe, Range};
ghost use Rattle.pungi_links.specs.Pending.{IsPending};
ghost use Rattle.pungi_links.specs.Ring.{Stands};

use crate::fix_fault::fault_at;
use crate::sources::edges_by_source;
use crate::stage::Stage;
use crate::turn::turn;
use crate::{FixFault, Summaries};
use pungi_base::{Memory, Seq};
use pungi_domain::{AffineProgram, Domain, DomainFault, Target};
use pungi_links::Pending;
use std::alloc::Global;

/// Every place, in order.
fn all_pending(alloc: Global, places: u32) -> Result<Pending, Memory>
    ensures pending { IfOk result IsPending }
    ensures limit { IfOk result (λ p. p.limit ≡ places) }
    ensures all { IfOk result (λ p. (k : ℕ) → k < places → Stands k p.list) }
{
    let mut pending = Pending::new(alloc, places)?;
    for k in 0..places {
        pending.put(k);
    }
    Ok(pending)
}

/// Puts the place that a target names.
fn put_target(pending: &mut Pending, to: Target)
    requires pending { IsPending pending.old }
    requires below { (k : ℕ) → to ≡ Place k → k < pending.old.limit }
    ensures pending { IsPending pending.new }
    ensures limit { pending.new.limit ≡ pending.old.limit }
    ensures put { (k : ℕ) → to ≡ Place k → Stands k pending.new.list }
    ensures kept { (k : ℕ) → Stands k pending.old.list → Stands k pending.new.list }
    ensures one { length pending.new.list ≤ length pending.old.list + 1 }
{
    if let Target::Place(k) = to {
        pending.put(k);
    }
}

/// Takes an edge. Where its target grew, that is pending.
fn take_edge<D: Domain>(
    alloc: Global,
    program: &AffineProgram,
    summaries: &Summaries<D>,
    number: usize,
    stage: &mut Stage<D>,
    pending: &mut Pending,
) -> Result<(), DomainFault>
    requires well_formed { IsWellFormed program.now }
    requires fits { FitsExits D.width_of summaries.now.exits program.now }
    requires within { number < length program.now.edges }
    requires searching { IsSearching D.least D.member D.width_of program.now (exit_of summaries.now.exits) stage.old
        pending.old }
    ensures searching { IsSearching D.least D.member D.width_of program.now (exit_of summaries.now.exits) stage.new
        pending.new }
    ensures work { work D.width_of D.rank stage.new pending.new ≤ work D.width_of D.rank stage.old pending.old }
    ensures left { OnOk result ((rest : List ℕ) → AreLeft program.now (calls D.member summaries.now.exits) D.member
        stage.old pending.old.list (number ∷ rest) → AreLeft program.now (calls D.member summaries.now.exits) D.member
        stage.new pending.new.list rest) }
    ensures range { RangeOnly (λ r. (e : AffineEdge) × (slice_get program.now.edges number ≡ Some e)
        × IsLargeBuild D.least D.member program.now (exit_of summaries.now.exits) e.from r) result }
{
    let edge = &program.edges.as_slice()[number];
    if turn(alloc, program, summaries, edge, stage)? {
        put_target(pending, edge.to);
    }
    Ok(())
}

/// Takes the edges of these numbers.
fn take_edges<D: Domain>(
    alloc: Global,
    program: &AffineProgram,
    summaries: &Summaries<D>,
    numbers: &[usize],
    stage: &mut Stage<D>,
    pending: &mut Pending,
) -> Result<(), DomainFault>
    requires well_formed { IsWellFormed program.now }
    requires fits { FitsExits D.width_of summaries.now.exits program.now }
    requires within { (i : ℕ) → Stands i numbers.now → i < length program.now.edges }
    requires searching { IsSearching D.least D.member D.width_of program.now (exit_of summaries.now.exits) stage.old
        pending.old }
    requires left { AreLeft program.now (calls D.member summaries.now.exits) D.member stage.old pending.old.list
        numbers.now }
    ensures searching { IsSearching D.least D.member D.width_of program.now (exit_of summaries.now.exits) stage.new
        pending.new }
    ensures work { work D.width_of D.rank stage.new pending.new ≤ work D.width_of D.rank stage.old pending.old }
    ensures taken { OnOk result (AreTaken program.now (calls D.member summaries.now.exits) D.member stage.new
        pending.new.list) }
    ensures range { RangeOnly (λ r. (i : ℕ) × (e : AffineEdge) × Stands i numbers.now
        × (slice_get program.now.edges i ≡ Some e)
        × IsLargeBuild D.least D.member program.now (exit_of summaries.now.exits) e.from r) result }
{
    for number in numbers {
        take_edge(alloc, program, summaries, *number, stage, pending)?;
    }
    Ok(())
}

/// Takes the edges of a place that was taken from the queue.
fn take_place<D: Domain>(
    alloc: Global,
    program: &AffineProgram,
    summaries: &Summaries<D>,
    sources: &[Seq<usize>],
    place: u32,
    stage: &mut Stage<D>,
    pending: &mut Pending,
) -> Result<(), FixFault>
    requires well_formed { IsWellFormed program.now }
    requires fits { FitsExits D.width_of summaries.now.exits program.now }
    requires index { IsIndex program.now.edges (length program.now.widths) sources.now }
    requires place { place < length program.now.widths }
    requires searching { IsSearching D.least D.member D.width_of program.now (exit_of summaries.now.exits) stage.old
        pending.old }
    requires taken { AreTaken program.now (calls D.member summaries.now.exits) D.member stage.old
        (place ∷ pending.old.list) }
    ensures searching { IsSearching D.least D.member D.width_of program.now (exit_of summaries.now.exits) stage.new
        pending.new }
    ensures work { work D.width_of D.rank stage.new pending.new ≤ work D.width_of D.rank stage.old pending.old }
    ensures taken { OnOk result (AreTaken program.now (calls D.member summaries.now.exits) D.member stage.new
        pending.new.list) }
    ensures safe { (k : ℕ) → result ≡ Err (NotSafe k) → ⊥ }
    ensures range { (k : ℕ) (row : List ℤ) → result ≡ Err (Range k row)
        → IsLargeBuild D.least D.member program.now (exit_of summaries.now.exits) k row }
{
    let numbers = sources[place as usize].as_slice();
    match take_edges(alloc, program, summaries, numbers, stage, pending) {
        Ok(()) => Ok(()),
        Err(fault) => Err(fault_at(place, fault)),
    }
}

/// Takes the edges of the places in the queue, until it is empty.
fn take_places<D: Domain>(
    alloc: Global,
    program: &AffineProgram,
    summaries: &Summaries<D>,
    sources: &[Seq<usize>],
    stage: &mut Stage<D>,
    pending: &mut Pending,
) -> Result<(), FixFault>
    requires well_formed { IsWellFormed program.now }
    requires fits { FitsExits D.width_of summaries.now.exits program.now }
    requires index { IsIndex program.now.edges (length program.now.widths) sources.now }
    requires searching { IsSearching D.least D.member D.width_of program.now (exit_of summaries.now.exits) stage.old
        pending.old }
    requires taken { AreTaken program.now (calls D.member summaries.now.exits) D.member stage.old pending.old.list }
    ensures searching { IsSearching D.least D.member D.width_of program.now (exit_of summaries.now.exits) stage.new
        pending.new }
    ensures settled { OnOk result (All (Takes program.now (calls D.member summaries.now.exits) D.member stage.new
        stage.new) program.now.edges) }
    ensures safe { (k : ℕ) → result ≡ Err (NotSafe k) → ⊥ }
    ensures range { (k : ℕ) (row : List ℤ) → result ≡ Err (Range k row)
        → IsLargeBuild D.least D.member program.now (exit_of summaries.now.exits) k row }
{
    'places: while let Some(k) = pending.take() {
        take_place(alloc, program, summaries, sources, k, stage, pending)?;
    }
    Ok(())
}

/// Takes edges until none changes a value: those of each place, and again where its value grew.
pub(crate) fn settle<D: Domain>(
    alloc: Global,
    program: &AffineProgram,
    summaries: &Summaries<D>,
    stage: &mut Stage<D>,
) -> Result<(), FixFault>
    requires well_formed { IsWellFormed program.now }
    requires fits { FitsExits D.width_of summaries.now.exits program.now }
    requires widths { FitsWidths D.width_of program.now stage.old.at stage.old.exits }
    requires first { IsFirst D.least D.member program.now stage.old }
    ensures widths { FitsWidths D.width_of program.now stage.new.at stage.new.exits }
    ensures built { IsBuilt D.least D.member program.now (exit_of summaries.now.exits) stage.new }
    ensures settled { OnOk result (All (Takes program.now (calls D.member summaries.now.exits) D.member stage.new
        stage.new) program.now.edges) }
    ensures safe { (k : ℕ) → result ≡ Err (NotSafe k) → ⊥ }
    ensures range { (k : ℕ) (row : List ℤ) → result ≡ Err (Range k row)
        → IsLargeBuild D.least D.member program.now (exit_of summaries.now.exits) k row }
{
    let places = program.widths.len();
    let sources = edges_by_source(alloc, program.edges.as_slice(), places)?;
    let mut pending = all_pending(alloc, places as u32)?;
    take_places(
        alloc,
        program,
        summaries,
        sources.as_slice(),
        stage,
        &mut pending,
    )
}
