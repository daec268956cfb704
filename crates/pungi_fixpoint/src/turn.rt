ghost use Rattle.std.specs.Prelude.{◌≡◌, ◌<◌, ◌≤◌, Ok, true, false, IfOk, MatchOption, OnOk, OnErr};
ghost use Rattle.pungi_domain.specs.Builds.{LargeTurn, Turn};
ghost use Rattle.pungi_domain.specs.Programs.{FitsEdge, IsTarget, IsWellFormed, width_at, width_to};
ghost use Rattle.pungi_fixpoint.specs.Sent.{IsSent, LargeSent};
ghost use Rattle.pungi_fixpoint.specs.Solver.{FitsCall, FitsWidths, calls};
ghost use Rattle.pungi_fixpoint.specs.Summaries.{exit_of};
ghost use Rattle.pungi_fixpoint.specs.Turns.{HasNoExit, RangeOnly, Takes, room};

use crate::Summaries;
use crate::action::sent;
use crate::guard::{met, or_source};
use crate::stage::Stage;
use pungi_domain::{AffineEdge, AffineProgram, Domain, DomainFault, Target};
use std::alloc::Global;

/// How many coordinates the vectors of a target have.
fn width_of_target(program: &AffineProgram, to: Target) -> u32
    requires program { IsWellFormed program.now }
    requires target { IsTarget program.now to }
    ensures width { result ≡ width_to program.now to }
    ensures narrow { result ≤ 256 }
{
    match to {
        Target::Place(k) => program.widths.as_slice()[k as usize],
        Target::Exit(k) => program.exits.as_slice()[k as usize],
    }
}

/// What an edge makes of the value at its source. `None` where a call finds nothing at the exit class that it names.
fn sent_over<D: Domain>(
    alloc: Global,
    program: &AffineProgram,
    summaries: &Summaries<D>,
    edge: &AffineEdge,
    source: &D,
) -> Result<Option<D>, DomainFault>
    requires program { IsWellFormed program.now }
    requires edge { FitsEdge program.now edge.now }
    requires exits { FitsCall D.width_of summaries.now.exits edge.now.action }
    requires width { D.width_of source.now ≡ width_at program.now edge.now.from }
    ensures sent { IfOk result (λ o. MatchOption o (HasNoExit (exit_of summaries.now.exits) edge.now.action)
        (IsSent D.least D.member program.now (exit_of summaries.now.exits) edge.now source.now)) }
    ensures width { IfOk result (λ o. MatchOption o (HasNoExit (exit_of summaries.now.exits) edge.now.action)
        (λ t. D.width_of t ≡ width_to program.now edge.now.to)) }
    ensures range { RangeOnly (LargeSent D.least D.member program.now (exit_of summaries.now.exits) edge.now source.now)
        result }
{
    let from = program.widths.as_slice()[edge.from as usize];
    let width = width_of_target(program, edge.to);
    let met = met(alloc, source, edge.guard.as_slice())?;
    sent(
        alloc,
        summaries,
        &edge.action,
        or_source(&met, source),
        from,
        width,
    )
}

/// Takes an edge: what stands at its source and meets its guard is sent to its target. Returns whether that grew.
pub(crate) fn turn<D: Domain>(
    alloc: Global,
    program: &AffineProgram,
    summaries: &Summaries<D>,
    edge: &AffineEdge,
    stage: &mut Stage<D>,
) -> Result<bool, DomainFault>
    requires program { IsWellFormed program.now }
    requires edge { FitsEdge program.now edge.now }
    requires exits { FitsCall D.width_of summaries.now.exits edge.now.action }
    requires widths { FitsWidths D.width_of program.now stage.old.at stage.old.exits }
    ensures widths { FitsWidths D.width_of program.now stage.new.at stage.new.exits }
    ensures turned { result ≡ Ok true → Turn D.least D.member program.now (exit_of summaries.now.exits) edge.now
        stage.old stage.new }
    ensures rose { result ≡ Ok true → room D.width_of D.rank stage.new < room D.width_of D.rank stage.old }
    ensures unchanged { result ≡ Ok false → stage.new ≡ stage.old }
    ensures taken { OnOk result (Takes program.now (calls D.member summaries.now.exits) D.member stage.old stage.new
        edge.now) }
    ensures err { OnErr result (stage.new ≡ stage.old) }
    ensures range { RangeOnly (LargeTurn D.least D.member program.now (exit_of summaries.now.exits) edge.now stage.old)
        result }
{
    let source = stage.place(edge.from);
    match sent_over(alloc, program, summaries, edge, source)? {
        None => Ok(false),
        Some(value) => stage.grow(alloc, edge.to, &value),
    }
}
