ghost use Rattle.std.specs.Prelude.{◌≡◌, ℕ, ◌<◌, ◌^◌, Some, length, slice_get, IfOk};
ghost use Rattle.std.specs.List.{Contains};
ghost use Rattle.pungi_links.specs.Pending.{IsPending};
ghost use Rattle.pungi_links.specs.Ring.{Stands};
ghost use Rattle.pungi_summary.specs.Calls.{AreCallable};
ghost use Rattle.pungi_summary.specs.Sites.{AreSites};
ghost use Rattle.pungi_summary.specs.Ways.{AreVisited, AreWays, HasWay, IsStart, IsVisited};
ghost use Rattle.pungi_summary.specs.declared.call_site.CallSite.{CallSite};
ghost use Rattle.pungi_summary.specs.declared.way.Way.{Way};

use crate::call_site::CallSite;
use crate::way::Way;
use pungi_base::{Memory, Seq};
use pungi_domain::AffineProgram;
use pungi_links::Pending;
use std::alloc::Global;

/// Every function, in order.
pub(crate) fn all_pending(alloc: Global, functions: u32) -> Result<Pending, Memory>
    ensures pending { IfOk result IsPending }
    ensures limit { IfOk result (λ p. p.limit ≡ functions) }
    ensures all { IfOk result (λ p. (f : ℕ) → f < functions → Stands f p.list) }
{
    let mut pending = Pending::new(alloc, functions)?;
    for f in 0..functions {
        pending.put(f);
    }
    Ok(pending)
}

/// The ways of the functions to be reached to themselves.
fn first_ways(alloc: Global, starts: &[bool]) -> Result<Vec<Option<Way>>, Memory>
    requires few { length starts.now < 2 ^ 32 }
    ensures count { IfOk result (λ ways. length ways.items ≡ length starts.now) }
    ensures sound { IfOk result (λ ways. (f : ℕ) (w : Way) → slice_get ways.items f ≡ Some (Some w)
        → (f ≡ w.origin) × IsStart starts.now f) }
    ensures there { IfOk result (λ ways. (f : ℕ) → IsStart starts.now f → HasWay ways.items f) }
{
    let mut ways = Vec::new(alloc);
    for f in 0..starts.len() {
        if starts[f] {
            let origin = f as u32;
            ways.push(Some(Way { origin, place: 0 }))?;
        } else {
            ways.push(None)?;
        }
    }
    Ok(ways)
}

/// Gives the caller of a site a way, if it has none.
fn visit(ways: &mut Vec<Option<Way>>, pending: &mut Pending, site: CallSite, origin: u32)
    requires caller { site.caller < length ways.old.items }
    requires pending { IsPending pending.old }
    requires limit { length ways.old.items ≡ pending.old.limit }
    ensures visited { IsVisited site.caller site.place origin ways.old.items ways.new.items pending.old.list
        pending.new.list }
    ensures pending { IsPending pending.new }
    ensures limit { pending.new.limit ≡ pending.old.limit }
{
    let caller = site.caller as usize;
    if ways[caller].is_none() {
        let place = site.place;
        ways[caller] = Some(Way { origin, place });
        pending.put(site.caller);
    }
}

/// Gives the callers of these sites a way, those that have none.
fn visit_callers(
    ways: &mut Vec<Option<Way>>,
    pending: &mut Pending,
    sites: &[CallSite],
    origin: u32,
)
    requires callers { (s : CallSite) → Contains sites.now s → s.caller < length ways.old.items }
    requires pending { IsPending pending.old }
    requires limit { length ways.old.items ≡ pending.old.limit }
    ensures visited { AreVisited sites.now origin ways.old.items ways.new.items pending.old.list pending.new.list }
    ensures pending { IsPending pending.new }
    ensures limit { pending.new.limit ≡ pending.old.limit }
{
    for site in sites {
        visit(ways, pending, *site, origin);
    }
}

/// For each function a way to one of these functions, if it reaches one by calls.
pub(crate) fn walk_back(
    alloc: Global,
    programs: &[Option<AffineProgram>],
    callees: &[Seq<u32>],
    sites: &[Seq<CallSite>],
    starts: &[bool],
) -> Result<Vec<Option<Way>>, Memory>
    requires few { length programs.now < 2 ^ 32 }
    requires callable { AreCallable programs.now callees.now }
    requires sites { AreSites programs.now callees.now sites.now }
    requires starts { length starts.now ≡ length programs.now }
    ensures { IfOk result (λ ways. AreWays programs.now callees.now starts.now ways.items) }
{
    let mut ways = first_ways(alloc, starts)?;
    let mut pending = all_pending(alloc, programs.len() as u32)?;
    'functions: while let Some(f) = pending.take() {
        if let Some(way) = ways[f as usize] {
            let callers = sites[f as usize].as_slice();
            visit_callers(&mut ways, &mut pending, callers, way.origin);
        }
    }
    Ok(ways)
}
