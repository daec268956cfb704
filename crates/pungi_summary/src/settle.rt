ghost use Rattle.std.specs.Prelude.{◌≡◌, ℕ, ◌+◌, ◌<◌, ◌≤◌, ◌^◌, List, [], ◌∷◌, length, OnOk};
ghost use Rattle.std.specs.List.{Contains};
ghost use Rattle.pungi_links.specs.Pending.{IsPending};
ghost use Rattle.pungi_links.specs.Ring.{Stands};
ghost use Rattle.pungi_summary.specs.Calls.{AreCallable};
ghost use Rattle.pungi_summary.specs.Sites.{AreSites};
ghost use Rattle.pungi_summary.specs.Worklist.{IsKept, IsSettling, work};
ghost use Rattle.pungi_summary.specs.declared.call_site.CallSite.{CallSite};

use crate::attempt::attempt;
use crate::call_site::CallSite;
use crate::outcome::Outcome;
use crate::step::Step;
use crate::walk::all_pending;
use pungi_base::{Memory, Seq};
use pungi_domain::{AffineProgram, Domain};
use pungi_fixpoint::{FixFault, Summaries};
use pungi_links::Pending;
use std::alloc::Global;

/// Puts the callers of these sites.
fn put_callers(pending: &mut Pending, sites: &[CallSite])
    requires pending { IsPending pending.old }
    requires callers { (s : CallSite) → Contains sites.now s → s.caller < pending.old.limit }
    ensures pending { IsPending pending.new }
    ensures limit { pending.new.limit ≡ pending.old.limit }
    ensures kept { (f : ℕ) → Stands f pending.old.list → Stands f pending.new.list }
    ensures put { (s : CallSite) → Contains sites.now s → Stands s.caller pending.new.list }
    ensures few { length pending.new.list ≤ length pending.old.list + length sites.now }
{
    for site in sites {
        pending.put(site.caller);
    }
}

/// Notes what a step gave. Where an exit grew, the callers are pending.
fn keep<D: Domain>(
    step: Step<D>,
    f: u32,
    sites: &[CallSite],
    summaries: &mut Summaries<D>,
    outcomes: &mut Vec<Outcome>,
    pending: &mut Pending,
)
    requires there { f < length summaries.old.exits }
    requires noted { f < length outcomes.old.items }
    requires pending { IsPending pending.old }
    requires callers { (s : CallSite) → Contains sites.now s → s.caller < pending.old.limit }
    ensures kept { IsKept step.failing step.exits step.grew f sites.now summaries.old.exits summaries.new.exits
        outcomes.old.items outcomes.new.items pending.old.list pending.new.list }
    ensures states { summaries.new.states ≡ summaries.old.states }
    ensures pending { IsPending pending.new }
    ensures limit { pending.new.limit ≡ pending.old.limit }
{
    let Step {
        failing,
        exits,
        grew,
    } = step;
    outcomes[f as usize] = Outcome::Annotated(failing);
    if grew {
        summaries.put_exits(f, exits);
        put_callers(pending, sites);
    }
}

/// Annotates a function that was taken from the queue, unless its outcome is final.
fn take_function<D: Domain>(
    alloc: Global,
    programs: &[Option<AffineProgram>],
    callees: &[Seq<u32>],
    sites: &[Seq<CallSite>],
    f: u32,
    summaries: &mut Summaries<D>,
    outcomes: &mut Vec<Outcome>,
    pending: &mut Pending,
) -> Result<(), Memory>
    requires callable { AreCallable programs.now callees.now }
    requires sites { AreSites programs.now callees.now sites.now }
    requires function { f < length programs.now }
    requires pending { IsPending pending.old }
    requires limit { pending.old.limit ≡ length programs.now }
    requires settling { IsSettling D.least D.member D.width_of programs.now callees.now summaries.old.exits
        outcomes.old.items (f ∷ pending.old.list) }
    ensures settling { OnOk result (IsSettling D.least D.member D.width_of programs.now callees.now summaries.new.exits
        outcomes.new.items pending.new.list) }
    ensures work { OnOk result (work D.width_of D.rank sites.now summaries.new.exits pending.new.list
        ≤ work D.width_of D.rank sites.now summaries.old.exits pending.old.list) }
    ensures states { summaries.new.states ≡ summaries.old.states }
    ensures pending { IsPending pending.new }
    ensures limit { pending.new.limit ≡ pending.old.limit }
{
    let Some(program) = &programs[f as usize] else {
        return Ok(());
    };
    if !outcomes[f as usize].is_open() {
        return Ok(());
    }
    match attempt(alloc, program, summaries, f) {
        Ok(step) => keep(
            step,
            f,
            sites[f as usize].as_slice(),
            summaries,
            outcomes,
            pending,
        ),
        Err(FixFault::Range(place, row)) => outcomes[f as usize] = Outcome::Large(place, row),
        Err(_) => return Err(Memory),
    }
    Ok(())
}

/// Annotates functions until no exit grows: each, and again where an exit that it reads grew.
pub(crate) fn settle<D: Domain>(
    alloc: Global,
    programs: &[Option<AffineProgram>],
    callees: &[Seq<u32>],
    sites: &[Seq<CallSite>],
    summaries: &mut Summaries<D>,
    outcomes: &mut Vec<Outcome>,
) -> Result<(), Memory>
    requires few { length programs.now < 2 ^ 32 }
    requires callable { AreCallable programs.now callees.now }
    requires sites { AreSites programs.now callees.now sites.now }
    requires first { (list : List ℕ) → ((f : ℕ) → f < length programs.now → Stands f list)
        → IsSettling D.least D.member D.width_of programs.now callees.now summaries.old.exits outcomes.old.items
        list }
    ensures settled { OnOk result (IsSettling D.least D.member D.width_of programs.now callees.now summaries.new.exits
        outcomes.new.items []) }
    ensures states { summaries.new.states ≡ summaries.old.states }
{
    let mut pending = all_pending(alloc, programs.len() as u32)?;
    'functions: while let Some(f) = pending.take() {
        take_function(
            alloc,
            programs,
            callees,
            sites,
            f,
            summaries,
            outcomes,
            &mut pending,
        )?;
    }
    Ok(())
}
