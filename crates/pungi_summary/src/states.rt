ghost use Rattle.std.specs.Prelude.{◌≡◌, ℕ, ◌<◌, ◌^◌, Some, length, slice_get, IfOk, IfSome, OnOk};
ghost use Rattle.pungi_fixpoint.specs.Summaries.{flatten};
ghost use Rattle.pungi_summary.specs.Calls.{AreCallable};
ghost use Rattle.pungi_summary.specs.Sites.{AreSites};
ghost use Rattle.pungi_summary.specs.States.{AreStates, by_failing, inherited, state_of};
ghost use Rattle.pungi_summary.specs.declared.way.Way.{Way};

use crate::call_site::CallSite;
use crate::failing::Failing;
use crate::outcome::Outcome;
use crate::starts::{with_failing_duty, with_large_step};
use crate::walk::walk_back;
use crate::way::Way;
use pungi_base::{Memory, Seq};
use pungi_domain::{AffineProgram, Domain};
use pungi_fixpoint::{State, Summaries};
use std::alloc::Global;

/// The state of a function that reaches one with a large step.
fn state_by_large(alloc: Global, outcomes: &[Outcome], f: u32, way: Way) -> Result<State, Memory>
    requires { way.origin < length outcomes.now }
    ensures { IfOk result (λ s. s ≡ inherited (slice_get outcomes.now way.origin) f way) }
{
    match &outcomes[way.origin as usize] {
        Outcome::Large(place, row) => {
            let row = row.copy(alloc)?;
            let place = if way.origin == f { *place } else { way.place };
            Ok(State::Range(place, row))
        }
        Outcome::Shapes | Outcome::Waiting | Outcome::Annotated(_) => Ok(State::Shapes),
    }
}

/// The state of a function by the duties that fail.
fn state_by_failing(failing: Failing, way: Option<Way>) -> State
    ensures { result ≡ by_failing failing.places failing.exits way }
{
    if let Some(place) = failing.places {
        return State::NotSafe(place);
    }
    if let Some(place) = failing.exits {
        return State::NotSafe(place);
    }
    match way {
        Some(way) => State::NotSafe(way.place),
        None => State::Safe,
    }
}

/// The state of a function.
fn state_of(
    alloc: Global,
    outcomes: &[Outcome],
    f: u32,
    large: Option<Way>,
    failing: Option<Way>,
) -> Result<State, Memory>
    requires function { f < length outcomes.now }
    requires origin { IfSome large (λ w. w.origin < length outcomes.now) }
    ensures { IfOk result (λ s. s ≡ state_of outcomes.now f large failing) }
{
    let outcome = &outcomes[f as usize];
    if outcome.is_shapes() {
        return Ok(State::Shapes);
    }
    if let Some(way) = large {
        return state_by_large(alloc, outcomes, f, way);
    }
    match outcome {
        Outcome::Annotated(duties) => Ok(state_by_failing(*duties, failing)),
        Outcome::Shapes | Outcome::Waiting | Outcome::Large(_, _) => Ok(State::Shapes),
    }
}

/// Sets the states of all functions, by these ways.
fn mark_by_ways<D: Domain>(
    alloc: Global,
    outcomes: &[Outcome],
    large: &[Option<Way>],
    failing: &[Option<Way>],
    summaries: &mut Summaries<D>,
) -> Result<(), Memory>
    requires few { length outcomes.now < 2 ^ 32 }
    requires large { length large.now ≡ length outcomes.now }
    requires failing { length failing.now ≡ length outcomes.now }
    requires states { length summaries.old.states ≡ length outcomes.now }
    requires origins { (f : ℕ) (w : Way) → slice_get large.now f ≡ Some (Some w) → w.origin < length outcomes.now }
    ensures states { OnOk result ((f : ℕ) → f < length outcomes.now → slice_get summaries.new.states f
        ≡ Some (state_of outcomes.now f (flatten (slice_get large.now f)) (flatten (slice_get failing.now f)))) }
    ensures count { length summaries.new.states ≡ length summaries.old.states }
    ensures exits { summaries.new.exits ≡ summaries.old.exits }
{
    for f in 0..outcomes.len() {
        let state = state_of(alloc, outcomes, f as u32, large[f], failing[f])?;
        summaries.mark(f as u32, state);
    }
    Ok(())
}

/// Sets the states of all functions.
pub(crate) fn mark_states<D: Domain>(
    alloc: Global,
    programs: &[Option<AffineProgram>],
    callees: &[Seq<u32>],
    sites: &[Seq<CallSite>],
    outcomes: &[Outcome],
    summaries: &mut Summaries<D>,
) -> Result<(), Memory>
    requires few { length programs.now < 2 ^ 32 }
    requires callable { AreCallable programs.now callees.now }
    requires sites { AreSites programs.now callees.now sites.now }
    requires outcomes { length outcomes.now ≡ length programs.now }
    requires states { length summaries.old.states ≡ length programs.now }
    ensures states { OnOk result (AreStates programs.now callees.now outcomes.now summaries.new.states) }
    ensures exits { summaries.new.exits ≡ summaries.old.exits }
{
    let starts = with_large_step(alloc, outcomes)?;
    let large = walk_back(alloc, programs, callees, sites, starts.as_slice())?;
    let starts = with_failing_duty(alloc, outcomes)?;
    let failing = walk_back(alloc, programs, callees, sites, starts.as_slice())?;
    mark_by_ways(
        alloc,
        outcomes,
        large.as_slice(),
        failing.as_slice(),
        summaries,
    )
}
