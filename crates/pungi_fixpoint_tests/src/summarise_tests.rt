ghost use Rattle.std.specs.Prelude.{◌≡◌, length, IfOk};
ghost use Rattle.pungi_summary.specs.Calls.{AreCallable};

use crate::programs::program;
use pungi_affine::Span;
use pungi_base::{Memory, Seq};
use pungi_domain::{AffineProgram, Domain, Flat};
use pungi_fixpoint::{State, Summaries};
use pungi_summary::{are_callable, summarise};
use std::alloc::Global;

/// An entry, whose vectors have two coordinates, and an exit class that nothing leads to.
const WITHOUT_EDGES: [i64; 7] = [1, 2, 1, 3, 1, 0, 0];

/// Leaves with two balances of 0, or calls the second function and adds one to both balances that it left with, which
/// have to be equal there. The coordinates at an exit are the constant and the balances; a call puts those of the
/// called function's exit past the constant, and the guard says that both constants are the same.
const FIRST_OF_RING: [i64; 60] = [
    2, 1, 4, 1, 3, 1, 0, 3, 0, 1, 0, 0, 0, 3, 1, 0, 1, 0, 0, 0, 0, 0, 1, 0, 2, 1, 0, 3, 1, 2, 3, 0,
    1, 1, 0, 1, 1, -1, 0, 0, 0, 3, 1, 0, 1, 2, 2, 1, 0, 1, 2, 3, 1, 0, 1, 1, 0, 0, 1, -1,
];

/// The same, with a call of the first function.
const SECOND_OF_RING: [i64; 60] = [
    2, 1, 4, 1, 3, 1, 0, 3, 0, 1, 0, 0, 0, 3, 1, 0, 1, 0, 0, 0, 0, 0, 1, 0, 2, 0, 0, 3, 1, 2, 3, 0,
    1, 1, 0, 1, 1, -1, 0, 0, 0, 3, 1, 0, 1, 2, 2, 1, 0, 1, 2, 3, 1, 0, 1, 1, 0, 0, 1, -1,
];

/// The third function, which calls itself, and adds two to one of the balances. They have to be equal on the edge from
/// place 1.
const CALLS_ITSELF: [i64; 80] = [
    3, 1, 4, 4, 1, 3, 1, 0, 4, 0, 1, 0, 0, 0, 3, 1, 0, 1, 0, 0, 0, 0, 0, 1, 0, 2, 2, 0, 3, 1, 2, 3,
    0, 1, 0, 2, 1, 1, -1, 0, 0, 0, 4, 1, 0, 1, 1, 1, 1, 1, 2, 1, 1, 3, 1, 1, 0, 0, 1, -1, 2, 1, 0,
    0, 0, 3, 1, 0, 1, 2, 2, 1, 0, 1, 2, 3, 1, 0, 2, 0,
];

/// Goes from its entry, place 1, to a place that it stays at. No edge calls a function.
const STAYS: [i64; 17] = [2, 1, 1, 0, 1, 1, 1, 1, 0, 0, 0, 0, 1, 1, 0, 1, 0];

/// A list of no number or of one.
fn list(alloc: Global, number: Option<u32>) -> Result<Seq<u32>, Memory> {
    let mut list = Seq::new(Vec::new(alloc));
    if let Some(number) = number {
        list.push(number)?;
    }
    Ok(list)
}

/// Two functions, the second of which has no program.
fn two_programs(alloc: Global) -> Result<Vec<Option<AffineProgram>>, Memory> {
    let mut programs = Vec::new(alloc);
    programs.push(Some(program(alloc, &WITHOUT_EDGES)?))?;
    programs.push(None)?;
    Ok(programs)
}

/// Neither calls a function.
fn no_callees(alloc: Global) -> Result<Vec<Seq<u32>>, Memory> {
    let mut callees = Vec::new(alloc);
    callees.push(list(alloc, None)?)?;
    callees.push(list(alloc, None)?)?;
    Ok(callees)
}

/// Two functions that call each other, one that calls itself, and one that calls that without an edge for it.
fn four_programs(alloc: Global) -> Result<Vec<Option<AffineProgram>>, Memory> {
    let mut programs = Vec::new(alloc);
    programs.push(Some(program(alloc, &FIRST_OF_RING)?))?;
    programs.push(Some(program(alloc, &SECOND_OF_RING)?))?;
    programs.push(Some(program(alloc, &CALLS_ITSELF)?))?;
    programs.push(Some(program(alloc, &STAYS)?))?;
    Ok(programs)
}

/// What these four call.
fn four_callees(alloc: Global) -> Result<Vec<Seq<u32>>, Memory> {
    let mut callees = Vec::new(alloc);
    callees.push(list(alloc, Some(1))?)?;
    callees.push(list(alloc, Some(0))?)?;
    callees.push(list(alloc, Some(2))?)?;
    callees.push(list(alloc, Some(2))?)?;
    Ok(callees)
}

/// The summaries of two functions.
fn of_two(
    alloc: Global,
    programs: &[Option<AffineProgram>],
    callees: &[Seq<u32>],
) -> Result<Summaries<Span>, Memory>
    requires two { length programs.now ≡ 2 }
    requires callable { AreCallable programs.now callees.now }
    ensures { IfOk result (λ s. length s.states ≡ 2) }
{
    summarise(alloc, programs, callees)
}

/// The summaries of four functions.
fn of_four<D: Domain>(
    alloc: Global,
    programs: &[Option<AffineProgram>],
    callees: &[Seq<u32>],
) -> Result<Summaries<D>, Memory>
    requires four { length programs.now ≡ 4 }
    requires callable { AreCallable programs.now callees.now }
    ensures { IfOk result (λ s. length s.states ≡ 4) }
{
    summarise(alloc, programs, callees)
}

#[test]
fn a_function_without_calls_is_safe(rt: HostRuntime) {
    let (Ok(programs), Ok(callees)) = (two_programs(rt.alloc()), no_callees(rt.alloc())) else {
        panic!(rt; "memory");
    };
    let (programs, callees) = (programs.as_slice(), callees.as_slice());
    let fits = programs.len() == 2 && are_callable(programs, callees);
    assert!(rt; fits);
    if programs.len() != 2 || !are_callable(programs, callees) {
        return;
    }
    let Ok(summaries) = of_two(rt.alloc(), programs, callees) else {
        panic!(rt; "memory");
    };
    let Some(exit) = summaries.exit(0, 0) else {
        panic!(rt; "an exit");
    };
    assert_eq!(rt; exit.dimension(), 0);
    assert!(rt; summaries.exit(1, 0).is_none());
    assert!(rt; matches!(summaries.state(0), State::Safe));
    assert!(rt; matches!(summaries.state(1), State::Shapes));
}

#[test]
fn a_ring_of_calls_is_judged(rt: HostRuntime) {
    let (Ok(programs), Ok(callees)) = (four_programs(rt.alloc()), four_callees(rt.alloc())) else {
        panic!(rt; "memory");
    };
    let (programs, callees) = (programs.as_slice(), callees.as_slice());
    let fits = programs.len() == 4 && are_callable(programs, callees);
    assert!(rt; fits);
    if programs.len() != 4 || !are_callable(programs, callees) {
        return;
    }
    let Ok(spans) = of_four::<Span>(rt.alloc(), programs, callees) else {
        panic!(rt; "memory");
    };
    // both balances are the same number, which only the relation between them tells
    assert!(rt; matches!(spans.state(0), State::Safe));
    assert!(rt; matches!(spans.state(1), State::Safe));
    let Some(exit) = spans.exit(0, 0) else {
        panic!(rt; "an exit");
    };
    assert_eq!(rt; exit.dimension(), 2);
    // one balance is twice the other, and the last function calls that one from its entry
    assert!(rt; matches!(spans.state(2), State::NotSafe(1)));
    assert!(rt; matches!(spans.state(3), State::NotSafe(1)));
    let Ok(constants) = of_four::<Flat>(rt.alloc(), programs, callees) else {
        panic!(rt; "memory");
    };
    assert!(rt; matches!(constants.state(0), State::NotSafe(1)));
}

#[test]
fn a_call_of_no_callee_is_refused(rt: HostRuntime) {
    let (Ok(programs), Ok(callees)) = (four_programs(rt.alloc()), no_callees(rt.alloc())) else {
        panic!(rt; "memory");
    };
    assert!(rt; !are_callable(programs.as_slice(), callees.as_slice()));
}
