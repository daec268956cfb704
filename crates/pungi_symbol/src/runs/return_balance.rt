// Whether a state that returns is balanced.
ghost use Rattle.std.specs.Prelude.{◌≡◌, ℕ, ◌<◌, ◌-ℤ◌, ◌^◌, ◌↔◌, IsTrue, true, false, MatchOption, pos, if◌then◌else◌};
ghost use Rattle.pungi_world.specs.Escapes.{IsCounted};
ghost use Rattle.pungi_symbol.specs.states.Known.{count};
ghost use Rattle.pungi_symbol.specs.answers.SymbolicState.{balance_at};
ghost use Rattle.pungi_symbol.specs.Promises.{LevelBy, OffBy};
ghost use Rattle.pungi_symbol.specs.runs.Paths.{owned_object, is_class, may_be_object, is_taken_as, taken_count};
ghost use Rattle.pungi_symbol.specs.runs.Paths.{returned_object, wanted, IsLevelState};

use crate::runs::begin::argument_count;
use crate::states::balances::{balance_at, class_at};
use crate::states::known::{Known, Status};
use crate::states::mark::Mark;
use crate::states::state::State;
use crate::states::term::Term;
use pungi_api::Terms;
use pungi_code::Code;

fn returned_token(known: &Known, x: Option<Term>) -> Option<usize>
    ensures { result ≡ returned_object known.now x }
{
    match x {
        None => None,
        Some(x) => known.object(x),
    }
}

fn owned_token(terms: &Terms, known: &Known, x: Option<Term>) -> Option<usize>
    ensures { result ≡ owned_object terms.now known.now x }
{
    if terms.convention.borrowed {
        None
    } else {
        returned_token(known, x)
    }
}

fn stands_for(classes: &[usize], owned: Option<usize>, t: usize) -> bool
    ensures { result ≡ is_class classes.now owned t }
{
    match owned {
        None => false,
        Some(u) => class_at(classes, u) == t,
    }
}

fn may_be_object(m: Mark) -> bool
    ensures { result ≡ may_be_object m }
{
    match m {
        Mark::Pointer => true,
        Mark::IsObject => true,
        Mark::TextPointer => false,
        Mark::IsNull => false,
        Mark::IsText => false,
        Mark::IsNumber(_) => false,
        Mark::IsConverted(_) => false,
        Mark::Integer(_) => false,
    }
}

fn is_taken_as(code: &Code, state: &State, t: usize, place: u32) -> bool
    ensures { result ≡ is_taken_as code.now state.now t place }
{
    let token = state.statics as usize + place as usize;
    (place as usize) < argument_count(code)
        && may_be_object(state.known.mark_of(token))
        && state.class_of(token) == t
}

fn taken_count(code: &Code, state: &State, t: usize) -> usize
    ensures count { result ≡ taken_count code.now state.now t }
    ensures few { result < 2 ^ 61 }
{
    let taken = code.terms.convention.taken.as_slice();
    taken
        .iter()
        .filter(|place| is_taken_as(code, state, t, **place))
        .count()
}

fn is_level_balance(b: i64, owned: bool, taken: usize) -> bool
    requires { taken < 2 ^ 61 }
    ensures { IsTrue result ↔ (b ≡ (if owned then pos 1 else pos 0) -ℤ pos taken) }
{
    let returned = if owned { 1 } else { 0 };
    b == returned - taken as i64
}

fn is_level_at(code: &Code, state: &State, owned: Option<usize>, t: usize) -> bool
    ensures { IsTrue result ↔ (balance_at state.now.balances t
        ≡ (if is_class state.now.classes owned t then pos 1 else pos 0) -ℤ pos (taken_count code.now state.now t)) }
{
    let b = balance_at(state.balances.as_slice(), t);
    let is_owned = stands_for(state.classes.as_slice(), owned, t);
    is_level_balance(b, is_owned, taken_count(code, state, t))
}

/// The first token that is counted and whose balance isn't what the return owes.
fn off_level(code: &Code, state: &State, x: Option<Term>) -> Option<usize>
    ensures { MatchOption result (IsLevelState code.now state.now x)
        (λ t. (IsCounted code.now.terms t × (t < count state.now.known))
        × (balance_at state.now.balances t ≡ wanted code.now state.now x t → ⊥)) }
{
    let owned = owned_token(&code.terms, &state.known, x);
    let first = code.terms.profile.immortal_count() as usize;
    let tokens = state.known.marks.len();
    for t in first..tokens {
        if !is_level_at(code, state, owned, t) {
            return Some(t);
        }
    }
    None
}

/// The first such token of a state that returned.
fn off_return(code: &Code, state: &State) -> Option<usize>
    ensures { MatchOption result (LevelBy code.now state.now state.now.known.status)
        (λ t. OffBy code.now state.now state.now.known.status t) }
{
    match state.known.status {
        Status::Going => None,
        Status::Returned(_, x) => off_level(code, state, x),
        Status::Stopped(_) => None,
        Status::Blocked(_, _) => None,
    }
}

/// Whether each balance of a state that returned is what the return owes.
pub fn is_level(code: &Code, state: &State) -> bool
    ensures level { result ≡ true → LevelBy code.now state.now state.now.known.status }
    ensures off { result ≡ false → (t : ℕ) × OffBy code.now state.now state.now.known.status t }
{
    match off_return(code, state) {
        Some(_) => false,
        None => true,
    }
}
