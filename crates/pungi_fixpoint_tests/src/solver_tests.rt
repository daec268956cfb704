use crate::programs::program;
use pungi_affine::Span;
use pungi_domain::{Domain, Flat, is_well_formed};
use pungi_fixpoint::{Annotation, FixFault, Summaries, solve};
use std::alloc::Global;

/// An entry whose vectors have two coordinates, a place that nothing leads to, and an exit.
const ENTRY_ALONE: [i64; 8] = [2, 2, 3, 1, 1, 1, 0, 0];

/// A loop that counts a balance up with each turn, up to a number, and one that counts it down by as many turns. At
/// the exit the balance has to be 0. The coordinates are the constant, the turns, the number and the balance.
const UP_AND_DOWN: [i64; 115] = [
    3, 2, 4, 4, 1, 3, 1, 0, 5, 0, 0, 1, 0, 0, 4, 1, 0, 1, 0, 1, 1, 1, 0, 0, 1, 0, 1, 0, 0, 4, 1, 0,
    1, 2, 1, 1, 0, 1, 1, 2, 1, 2, 3, 1, 0, 1, 0, 1, 0, 2, 1, 0, 1, -1, 0, 0, 4, 1, 0, 1, 0, 1, 2,
    1, 1, 3, 1, 0, 2, 0, 2, 0, 0, 4, 1, 0, 1, 2, 1, 1, 0, 1, 1, 2, 1, 2, 3, 1, 0, -1, 0, 2, 1, 0,
    1, 0, 1, -1, 0, 0, 3, 1, 0, 1, 1, 2, 1, 1, 3, 1, 1, 0, 0, 0, 1,
];

/// The same with two balances. The first loop counts its turns twice, and the second one is left after as many
/// turns as the second count has.
const TWO_BALANCES: [i64; 156] = [
    3, 2, 6, 6, 1, 4, 1, 0, 5, 0, 0, 1, 0, 0, 6, 1, 0, 1, 0, 0, 1, 1, 1, 0, 0, 0, 1, 0, 1, 0, 0, 6,
    1, 0, 1, 2, 1, 1, 0, 1, 2, 2, 1, 0, 1, 1, 3, 1, 2, 4, 1, 0, 1, 2, 5, 1, 0, 1, 0, 1, 0, 2, 1, 0,
    1, 0, -1, 0, 0, 0, 6, 1, 0, 1, 0, 1, 2, 1, 1, 3, 1, 1, 4, 1, 1, 5, 1, 0, 2, 0, 2, 0, 0, 6, 1,
    0, 1, 2, 1, 1, 0, 1, 1, 2, 1, 1, 3, 1, 2, 4, 1, 0, -1, 2, 5, 1, 0, -1, 0, 2, 1, 0, 1, 0, 1, -1,
    0, 0, 0, 0, 4, 1, 0, 1, 1, 3, 1, 1, 4, 1, 1, 5, 1, 2, 0, 0, 0, 0, 1, 0, 0, 0, 0, 0, 0, 1,
];

/// The first loop alone: at the exit the balance is the number.
const UP_ALONE: [i64; 70] = [
    2, 2, 4, 1, 3, 1, 0, 3, 0, 0, 1, 0, 0, 4, 1, 0, 1, 0, 1, 1, 1, 0, 0, 1, 0, 1, 0, 0, 4, 1, 0, 1,
    2, 1, 1, 0, 1, 1, 2, 1, 2, 3, 1, 0, 1, 0, 1, 1, 0, 1, 0, 1, -1, 0, 0, 3, 1, 0, 1, 1, 2, 1, 1,
    3, 1, 1, 0, 0, 0, 1,
];

/// What `solve` gives for the program, with no exits known. None where it isn't well-formed.
fn solved<D: Domain>(alloc: Global, numbers: &[i64]) -> Option<Result<Annotation<D>, FixFault>> {
    let program = program(alloc, numbers).ok()?;
    if !is_well_formed(&program) {
        return None;
    }
    let summaries = Summaries::empty(alloc, 0).ok()?;
    Some(solve(alloc, &program, &summaries))
}

/// Whether an annotation is found.
fn is_safe<D: Domain>(alloc: Global, numbers: &[i64]) -> bool {
    matches!(solved::<D>(alloc, numbers), Some(Ok(_)))
}

/// The place from which an edge with a duty that fails leads.
fn failing_place<D: Domain>(alloc: Global, numbers: &[i64]) -> Option<u32> {
    match solved::<D>(alloc, numbers)? {
        Err(FixFault::NotSafe(place)) => Some(place),
        _ => None,
    }
}

#[test]
fn an_entry_has_every_vector(rt: HostRuntime) {
    let Some(Ok(spans)) = solved::<Span>(rt.alloc(), &ENTRY_ALONE) else {
        panic!(rt; "no annotation");
    };
    let [entry, other] = spans.at.as_slice() else {
        panic!(rt; "two places");
    };
    assert_eq!(rt; entry.dimension(), 2);
    assert_eq!(rt; other.dimension(), 0);
    assert_eq!(rt; spans.exits.len(), 1);
    assert!(rt; is_safe::<Flat>(rt.alloc(), &ENTRY_ALONE));
}

#[test]
fn spans_relate_the_balance_to_the_turns(rt: HostRuntime) {
    assert!(rt; is_safe::<Span>(rt.alloc(), &UP_AND_DOWN));
    assert!(rt; is_safe::<Span>(rt.alloc(), &TWO_BALANCES));
    assert_eq!(rt; failing_place::<Span>(rt.alloc(), &UP_ALONE), Some(1));
}

#[test]
fn constants_do_not(rt: HostRuntime) {
    assert_eq!(rt; failing_place::<Flat>(rt.alloc(), &UP_AND_DOWN), Some(2));
    assert_eq!(rt; failing_place::<Flat>(rt.alloc(), &TWO_BALANCES), Some(2));
    assert_eq!(rt; failing_place::<Flat>(rt.alloc(), &UP_ALONE), Some(1));
}
