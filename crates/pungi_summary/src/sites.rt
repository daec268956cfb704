ghost use Rattle.std.specs.Prelude.{◌≡◌, ℕ, ◌<◌, ◌^◌, [], length, replicate, IfOk, OnOk};
ghost use Rattle.std.specs.List.{All};
ghost use Rattle.pungi_summary.specs.Calls.{AreCallable};
ghost use Rattle.pungi_summary.specs.Sites.{AreCalleesNoted, AreSites, IsSitePut};

use crate::call_places::{call_place, no_calls, note_program};
use crate::call_site::CallSite;
use pungi_base::{Memory, Seq};
use pungi_domain::AffineProgram;
use std::alloc::Global;

/// Lists of no call sites.
fn no_sites(alloc: Global, count: usize) -> Result<Vec<Seq<CallSite>>, Memory>
    ensures { IfOk result (λ lists. lists.items ≡ replicate count []) }
{
    let mut lists = Vec::new(alloc);
    for _ in 0..count {
        lists.push(Seq::new(Vec::new(alloc)))?;
    }
    Ok(lists)
}

/// Puts a site to the list of a function.
fn put_site(sites: &mut Vec<Seq<CallSite>>, callee: u32, site: CallSite) -> Result<(), Memory>
    requires { callee < length sites.old.items }
    ensures { OnOk result (IsSitePut callee site sites.old.items sites.new.items) }
{
    sites[callee as usize].push(site)
}

/// Notes the calls of a function: one site for each function that it calls.
fn note_callees(
    sites: &mut Vec<Seq<CallSite>>,
    firsts: &[Option<CallSite>],
    caller: u32,
    entry: u32,
    callees: &[u32],
) -> Result<(), Memory>
    requires within { All (λ g. g < length sites.old.items) callees.now }
    requires table { length firsts.now ≡ length sites.old.items }
    ensures { OnOk result (AreCalleesNoted firsts.now caller entry callees.now sites.old.items sites.new.items) }
{
    for callee in callees {
        let place = call_place(firsts, caller, entry, *callee);
        put_site(sites, *callee, CallSite { caller, place })?;
    }
    Ok(())
}

/// For each function where it is called.
pub(crate) fn call_sites(
    alloc: Global,
    programs: &[Option<AffineProgram>],
    callees: &[Seq<u32>],
) -> Result<Vec<Seq<CallSite>>, Memory>
    requires few { length programs.now < 2 ^ 32 }
    requires callable { AreCallable programs.now callees.now }
    ensures { IfOk result (λ sites. AreSites programs.now callees.now sites.items) }
{
    let mut firsts = no_calls(alloc, programs.len())?;
    let mut sites = no_sites(alloc, programs.len())?;
    for f in 0..programs.len() {
        let caller = f as u32;
        let entry = note_program(&mut firsts, caller, &programs[f]);
        let called = callees[f].as_slice();
        note_callees(&mut sites, firsts.as_slice(), caller, entry, called)?;
    }
    Ok(sites)
}
