// Which answers a question still has in a state.
ghost use Rattle.std.specs.Prelude.{◌≡◌, ◌||◌, not};
ghost use Rattle.pungi_symbol.specs.answers.SymbolicState.{is_order, is_decision, is_outcome, are_one, are_other};
ghost use Rattle.pungi_symbol.specs.answers.SymbolicState.{can_same, is_any_order, can_order, range_place, can_range};
ghost use Rattle.pungi_symbol.specs.answers.SymbolicState.{can};

use crate::answers::decision::Decision;
use crate::answers::limits::{high_limit, low_limit};
use crate::answers::outcomes::{outcomes_after, outcomes_of_call};
use crate::questions::question::Question;
use crate::states::balances::is_other;
use crate::states::node::{is_same_node, is_zero_node};
use crate::states::state::State;
use crate::states::sum::Sum;
use pungi_types::ValueKind;
use std::cmp::Ordering;

fn is_same_order(a: Ordering, b: Ordering) -> bool
    ensures { result ≡ is_order a b }
{
    match a {
        Ordering::Less => match b {
            Ordering::Less => true,
            Ordering::Equal => false,
            Ordering::Greater => false,
        },
        Ordering::Equal => match b {
            Ordering::Less => false,
            Ordering::Equal => true,
            Ordering::Greater => false,
        },
        Ordering::Greater => match b {
            Ordering::Less => false,
            Ordering::Equal => false,
            Ordering::Greater => true,
        },
    }
}

fn is_this_same(a: bool, d: Decision) -> bool
    ensures { result ≡ is_decision (Decision.Same a) d }
{
    match d {
        Decision::Quiet => false,
        Decision::Outcome(_) => false,
        Decision::Order(_) => false,
        Decision::Same(b) => { if a { b } else { !b } }
    }
}

fn is_this_decision(a: Decision, d: Decision) -> bool
    ensures { result ≡ is_decision a d }
{
    match a {
        Decision::Quiet => match d {
            Decision::Quiet => true,
            Decision::Outcome(_) => false,
            Decision::Order(_) => false,
            Decision::Same(_) => false,
        },
        Decision::Outcome(j) => match d {
            Decision::Quiet => false,
            Decision::Outcome(k) => j == k,
            Decision::Order(_) => false,
            Decision::Same(_) => false,
        },
        Decision::Order(p) => match d {
            Decision::Quiet => false,
            Decision::Outcome(_) => false,
            Decision::Order(q) => is_same_order(p, q),
            Decision::Same(_) => false,
        },
        Decision::Same(b) => is_this_same(b, d),
    }
}

fn is_an_outcome(n: u64, d: Decision) -> bool
    ensures { result ≡ is_outcome n d }
{
    match d {
        Decision::Outcome(k) => (k as u64) < n,
        Decision::Quiet => false,
        Decision::Order(_) => false,
        Decision::Same(_) => false,
    }
}

fn is_any_order(d: Decision) -> bool
    ensures { result ≡ is_any_order d }
{
    match d {
        Decision::Order(_) => true,
        Decision::Quiet => false,
        Decision::Outcome(_) => false,
        Decision::Same(_) => false,
    }
}

/// Whether two sums may compare so. Those of one token compare as their constants do.
fn can_order(a: Sum, b: Sum, d: Decision) -> bool
    ensures { result ≡ can_order a b d }
{
    if is_same_node(a.node, b.node) {
        is_this_decision(Decision::Order(a.plus.cmp(&b.plus)), d)
    } else {
        is_any_order(d)
    }
}

fn range_place(kind: ValueKind, n: i128) -> u32
    ensures { result ≡ range_place kind n }
{
    if low_limit(kind) <= n && n <= high_limit(kind) {
        1
    } else if n < 0 {
        0
    } else {
        2
    }
}

/// Whether a sum may be there in the range of a kind. One of no token is where its constant is.
fn can_range(kind: ValueKind, a: Sum, d: Decision) -> bool
    ensures { result ≡ can_range kind a d }
{
    if is_zero_node(a.node) {
        is_this_decision(Decision::Outcome(range_place(kind, a.plus)), d)
    } else {
        is_an_outcome(3, d)
    }
}

impl State {
    /// Whether two tokens may be one object.
    fn can_be_one(&self, t: usize, u: usize) -> bool
        ensures { result ≡ (are_one self.now.classes t u
            || not (are_other self.now.statics self.now.known self.now.classes self.now.others t u)) }
    {
        let (classes, others) = (self.classes.as_slice(), self.others.as_slice());
        self.are_one(t, u) || !is_other(self.statics, &self.known, classes, others, t, u)
    }

    fn can_same(&self, t: usize, u: usize, d: Decision) -> bool
        ensures { result ≡ can_same self.now t u d }
    {
        match d {
            Decision::Same(true) => self.can_be_one(t, u),
            Decision::Same(false) => !self.are_one(t, u),
            Decision::Quiet => false,
            Decision::Outcome(_) => false,
            Decision::Order(_) => false,
        }
    }

    /// Whether a question still has this answer.
    pub fn can(&self, q: Question, d: Decision) -> bool
        ensures { result ≡ can self.now q d }
    {
        match q {
            Question::Does(told) => is_this_decision(told, d),
            Question::Touches(_) => is_this_decision(Decision::Quiet, d),
            Question::Overwrites(m) => is_an_outcome(outcomes_after(m), d),
            Question::Null(t) => is_an_outcome(outcomes_after(self.known.mark_of(t)), d),
            Question::Base(t, u, _) => self.can_same(t, u, d),
            Question::Answers(answer) => is_an_outcome(outcomes_of_call(answer), d),
            Question::Same(t, u) => self.can_same(t, u, d),
            Question::Orders(a, b) => can_order(a, b, d),
            Question::Range(kind, a) => can_range(kind, a, d),
            Question::Computes(_, _, _, _) => is_an_outcome(3, d),
            Question::Unplain => is_this_decision(Decision::Quiet, d),
            Question::Turn => is_this_decision(Decision::Quiet, d),
            Question::Returns(_) => is_this_decision(Decision::Quiet, d),
            Question::Stops(told) => is_this_decision(told, d),
            Question::Over => false,
        }
    }
}
