ghost use Rattle.std.specs.Prelude.{◌≡◌, ◌↔◌, ℕ, ◌<◌, ◌^◌, ℤ, List, Some, true, length, map, slice_get, IfOk};
ghost use Rattle.pungi_domain.specs.Programs.{IsWellFormed};
ghost use Rattle.pungi_domain.specs.declared.affine_program.AffineProgram.{AffineProgram};
ghost use Rattle.pungi_fixpoint.specs.declared.state.State.TheVariants.{NotSafe, Range, Shapes};
ghost use Rattle.pungi_summary.specs.Calls.{AreCallable, HasPlace, LacksProgram, program_of};
ghost use Rattle.pungi_summary.specs.Results.{AreAnnotated, AreFirstExits, FitExits, HasRange, IsBelowAll, IsNotSafe};
ghost use Rattle.pungi_summary.specs.Sites.{AreSites};
ghost use Rattle.pungi_summary.specs.Worklist.{AreFirst, first_outcome};

use crate::call_site::CallSite;
use crate::outcome::Outcome;
use crate::settle::settle;
use crate::sites::call_sites;
use crate::starts::without_program;
use crate::states::mark_states;
use crate::values::no_vectors;
use crate::walk::walk_back;
use crate::way::Way;
use pungi_base::{Memory, Seq};
use pungi_domain::{AffineProgram, Domain};
use pungi_fixpoint::Summaries;
use std::alloc::Global;

/// The outcomes at first, by the ways to functions without a program.
fn outcomes_by_ways(alloc: Global, ways: &[Option<Way>]) -> Result<Vec<Outcome>, Memory>
    ensures { IfOk result (λ v. v.items ≡ map first_outcome ways.now) }
{
    let mut outcomes = Vec::new(alloc);
    for way in ways {
        match way {
            Some(_) => outcomes.push(Outcome::Shapes)?,
            None => outcomes.push(Outcome::Waiting)?,
        }
    }
    Ok(outcomes)
}

/// The outcomes at first.
fn first_outcomes(
    alloc: Global,
    programs: &[Option<AffineProgram>],
    callees: &[Seq<u32>],
    sites: &[Seq<CallSite>],
) -> Result<Vec<Outcome>, Memory>
    requires few { length programs.now < 2 ^ 32 }
    requires callable { AreCallable programs.now callees.now }
    requires sites { AreSites programs.now callees.now sites.now }
    ensures { IfOk result (λ v. AreFirst programs.now callees.now v.items) }
{
    let starts = without_program(alloc, programs)?;
    let ways = walk_back(alloc, programs, callees, sites, starts.as_slice())?;
    outcomes_by_ways(alloc, ways.as_slice())
}

/// No vectors at each exit class.
fn first_summaries<D: Domain>(
    alloc: Global,
    programs: &[Option<AffineProgram>],
) -> Result<Summaries<D>, Memory>
    requires few { length programs.now < 2 ^ 32 }
    requires well_formed { (f : ℕ) (p : AffineProgram) → program_of programs.now f ≡ Some p → IsWellFormed p }
    ensures exits { IfOk result (λ s. AreFirstExits D.least D.member D.width_of programs.now s.exits) }
    ensures states { IfOk result (λ s. length s.states ≡ length programs.now) }
{
    let mut summaries = Summaries::empty(alloc, programs.len() as u32)?;
    for f in 0..programs.len() {
        if let Some(program) = &programs[f] {
            let values = no_vectors(alloc, program.exits.as_slice())?;
            summaries.put_exits(f as u32, values);
        }
    }
    Ok(summaries)
}

/// Summaries of all functions of a file, by their numbers: what the runs of each leave at its exit classes, and what is
/// known of its annotations. A function without a program has none, since it is too large or has no code. The callees
/// of each function are all that it calls, also those that no edge of its program does.
///
/// Over a domain of least values the summaries are the least ones, `NotSafe` means that no annotation is safe, and
/// `Range` comes only where some order of the edges leads to a large step of the function, or of one that it reaches.
pub fn summarise<D: Domain>(
    alloc: Global,
    programs: &[Option<AffineProgram>],
    callees: &[Seq<u32>],
) -> Result<Summaries<D>, Memory>
    requires few { length programs.now < 2 ^ 32 }
    requires callable { AreCallable programs.now callees.now }
    ensures count { IfOk result (λ s. length s.states ≡ length programs.now) }
    ensures exits { IfOk result (λ s. FitExits D.width_of programs.now s.exits) }
    ensures shapes { IfOk result (λ s. (f : ℕ) → f < length programs.now
        → (slice_get s.states f ≡ Some Shapes ↔ LacksProgram programs.now callees.now f)) }
    ensures annotated { IfOk result (λ s. (at : ℕ → List D) × AreAnnotated D.member programs.now callees.now at s) }
    ensures least { D.least ≡ true → IfOk result (λ s. IsBelowAll D.member programs.now callees.now s.exits) }
    ensures not_safe { D.least ≡ true → IfOk result (IsNotSafe programs.now callees.now) }
    ensures place { IfOk result (λ s. (f k : ℕ) → slice_get s.states f ≡ Some (NotSafe k)
        → HasPlace programs.now callees.now f k) }
    ensures range { IfOk result (λ s. (f k : ℕ) (row : List ℤ) → slice_get s.states f ≡ Some (Range k row)
        → HasRange D.least D.member programs.now callees.now f k row) }
{
    let sites = call_sites(alloc, programs, callees)?;
    let mut outcomes = first_outcomes(alloc, programs, callees, sites.as_slice())?;
    let mut summaries = first_summaries(alloc, programs)?;
    settle(
        alloc,
        programs,
        callees,
        sites.as_slice(),
        &mut summaries,
        &mut outcomes,
    )?;
    mark_states(
        alloc,
        programs,
        callees,
        sites.as_slice(),
        outcomes.as_slice(),
        &mut summaries,
    )?;
    Ok(summaries)
}
