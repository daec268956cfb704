ghost use Rattle.std.specs.Prelude.{◌≡◌, ℕ, ◌+◌, ◌<◌, None, Some, length, replicate, IfOk, MatchOption};
ghost use Rattle.std.specs.List.{All};
ghost use Rattle.pungi_domain.specs.declared.affine_program.AffineProgram.{AffineProgram};
ghost use Rattle.pungi_summary.specs.CallPlaces.{AreBelow, ArePlaces, ArePlacesOf, EdgeCalls, IsNoted, IsPlaceIn};
ghost use Rattle.pungi_summary.specs.CallPlaces.{entry_of, site};

use crate::call_site::CallSite;
use crate::first_entry::first_entry;
use pungi_base::Memory;
use pungi_domain::{Action, AffineEdge, AffineProgram};
use std::alloc::Global;

/// A table of no calls.
pub(crate) fn no_calls(alloc: Global, count: usize) -> Result<Vec<Option<CallSite>>, Memory>
    ensures { IfOk result (λ firsts. firsts.items ≡ replicate count None) }
{
    let mut firsts = Vec::new(alloc);
    for _ in 0..count {
        firsts.push(None)?;
    }
    Ok(firsts)
}

/// The place of a call, if it is one of this function.
fn place_of(first: Option<CallSite>, caller: u32) -> Option<u32>
    ensures { MatchOption result ((k : ℕ) → first ≡ Some (site caller k) → ⊥)
        (λ k. first ≡ Some (site caller k)) }
{
    match first {
        Some(site) if site.caller == caller => Some(site.place),
        _ => None,
    }
}

/// The place of a function's call of another one, by the table; the entry where it has none.
pub(crate) fn call_place(firsts: &[Option<CallSite>], caller: u32, entry: u32, callee: u32) -> u32
    requires { callee < length firsts.now }
    ensures { IsPlaceIn firsts.now caller entry callee result }
{
    match place_of(firsts[callee as usize], caller) {
        Some(place) => place,
        None => entry,
    }
}

/// Notes an edge of a function's program, if it is the first that calls its function.
fn note_edge(firsts: &mut Vec<Option<CallSite>>, caller: u32, edge: &AffineEdge)
    requires { (g : ℕ) → EdgeCalls edge.now g → g < length firsts.old.items }
    ensures { IsNoted caller edge.now firsts.old.items firsts.new.items }
{
    if let Action::Call { callee, .. } = &edge.action {
        let callee = *callee as usize;
        if place_of(firsts[callee], caller).is_none() {
            let place = edge.from;
            firsts[callee] = Some(CallSite { caller, place });
        }
    }
}

/// Notes the edges of a function's program.
fn note_edges(firsts: &mut Vec<Option<CallSite>>, caller: u32, program: &AffineProgram)
    requires within { All (λ e. (g : ℕ) → EdgeCalls e g → g < length firsts.old.items) program.now.edges }
    requires below { AreBelow firsts.old.items caller }
    ensures places { ArePlaces caller program.now firsts.new.items }
    ensures below { AreBelow firsts.new.items (caller + 1) }
    ensures count { length firsts.new.items ≡ length firsts.old.items }
{
    for edge in program.edges.as_slice() {
        note_edge(firsts, caller, edge);
    }
}

/// Notes the edges of a function's program, if it has one, and returns its first entry.
pub(crate) fn note_program(
    firsts: &mut Vec<Option<CallSite>>,
    caller: u32,
    program: &Option<AffineProgram>,
) -> u32
    requires within { (p : AffineProgram) → program.now ≡ Some p
        → All (λ e. (g : ℕ) → EdgeCalls e g → g < length firsts.old.items) p.edges }
    requires below { AreBelow firsts.old.items caller }
    ensures places { ArePlacesOf caller program.now firsts.new.items }
    ensures below { AreBelow firsts.new.items (caller + 1) }
    ensures count { length firsts.new.items ≡ length firsts.old.items }
    ensures entry { result ≡ entry_of program.now }
{
    match program {
        Some(program) => {
            note_edges(firsts, caller, program);
            first_entry(program)
        }
        None => 0,
    }
}
