// One state, with what it adds to the pending states.
ghost use Rattle.std.specs.Prelude.{◌≡◌, ◌++◌, ◌∷◌, [], ◌⊎◌, map, false, IfOk, OnOk};
ghost use Rattle.pungi_symbol.specs.declared.states.known.Status.TheVariants.{Blocked as IsBlockedBy};
ghost use Rattle.pungi_symbol.specs.Promises.{next_states, HasFreeRun, AtLoop, IsOffIn};
ghost use Rattle.pungi_symbol.specs.runs.AtZero.{HasNoZeroTable};
ghost use Rattle.pungi_explore.specs.Visits.{IsEnd, IsAtBlock, LeadsNowhere, Puts, Visits};

use crate::visited::Visited;
use pungi_base::{Memory, Pos, Seq};
use pungi_code::Codes;
use pungi_symbol::{
    Decision, Obstacle, Sym, SymEnd, end, has_free_run, is_balanced, number_place, solve, step_from,
};
use std::alloc::Global;

/// Adds these states.
pub fn put_states(states: Vec<(Decision, Sym)>, pending: &mut Seq<Sym>) -> Result<(), Memory>
    ensures { OnOk result (pending.new ≡ pending.old ++ map (λ p. p.1) states.items) }
{
    for (_, state) in states {
        pending.push(state)?;
    }
    Ok(())
}

/// Whether a run may be in a state after this answer, or in one that it leads to. It is looked into where the answer may
/// be of numbers.
fn may_run_after(alloc: Global, decision: Decision, state: &Sym) -> Result<bool, Memory>
    ensures { IfOk result (λ b. b ≡ false → LeadsNowhere state.now) }
{
    match decision {
        Decision::Order(_) | Decision::Outcome(_) => has_free_run(alloc, state),
        Decision::Quiet | Decision::Same(_) => Ok(true),
    }
}

/// The same, looked into where there were several answers and the state goes on. One that has ended is looked into when
/// it is visited.
fn may_run(alloc: Global, several: bool, decision: Decision, state: &Sym) -> Result<bool, Memory>
    ensures { IfOk result (λ b. b ≡ false → LeadsNowhere state.now) }
{
    if !several {
        return Ok(true);
    }
    match end(state) {
        SymEnd::Going => may_run_after(alloc, decision, state),
        SymEnd::Returned(_) | SymEnd::Stopped(_) | SymEnd::Blocked(_, _) => Ok(true),
    }
}

/// Adds a state, unless no run is in it.
fn put_possible(
    alloc: Global,
    several: bool,
    decision: Decision,
    state: Sym,
    pending: &mut Seq<Sym>,
) -> Result<(), Memory>
    ensures { OnOk result ((pending.new ≡ pending.old ++ state ∷ [])
        ⊎ (LeadsNowhere state × (pending.new ≡ pending.old))) }
{
    if may_run(alloc, several, decision, &state)? {
        pending.push(state)?;
    }
    Ok(())
}

/// Adds these states, without some that no run is in.
fn put_all_possible(
    alloc: Global,
    states: Vec<(Decision, Sym)>,
    pending: &mut Seq<Sym>,
) -> Result<(), Memory>
    ensures { OnOk result (Puts (map (λ p. p.1) states.items) pending.old pending.new) }
{
    let several = states.len() > 1;
    for (decision, state) in states {
        put_possible(alloc, several, decision, state, pending)?;
    }
    Ok(())
}

fn put_next(alloc: Global, codes: &Codes, state: Sym, pending: &mut Seq<Sym>) -> Result<(), Memory>
    ensures { OnOk result (Puts (map (λ p. p.1) (next_states codes.now state)) pending.old pending.new) }
{
    let next = step_from(alloc, codes, state)?;
    put_all_possible(alloc, next, pending)?;
    Ok(())
}

/// What is seen at a state that returned unbalanced, where no run was found.
fn at_doubt(codes: &Codes, state: &Sym) -> Visited
    requires off { IsOffIn codes.now state.now }
    requires run { HasFreeRun codes.now state.now }
    requires none { HasNoZeroTable state.now }
    requires place { AtLoop codes.now state.now }
    ensures { IsEnd codes.now state.now result }
{
    match number_place(state) {
        Some(pos) => Visited::Open(Obstacle::Number, pos),
        None => Visited::Gone,
    }
}

/// What is seen at a state that has returned or stopped and has a run, if some numbers may be any.
fn at_run(alloc: Global, codes: &Codes, state: &Sym) -> Result<Visited, Memory>
    requires run { HasFreeRun codes.now state.now }
    requires place { AtLoop codes.now state.now }
    ensures { IfOk result (IsEnd codes.now state.now) }
{
    if is_balanced(codes, state) {
        return Ok(Visited::Ends);
    }
    match solve(alloc, codes, state)? {
        Some(witness) => Ok(Visited::Unbalanced(witness)),
        None => Ok(at_doubt(codes, state)),
    }
}

/// What is seen at a state that has returned or stopped.
fn at_end(alloc: Global, codes: &Codes, state: &Sym) -> Result<Visited, Memory>
    requires { AtLoop codes.now state.now }
    ensures { IfOk result (IsEnd codes.now state.now) }
{
    if has_free_run(alloc, state)? {
        return at_run(alloc, codes, state);
    }
    Ok(Visited::Gone)
}

/// What is seen at a state whose path isn't followed.
fn at_block(
    alloc: Global,
    codes: &Codes,
    state: &Sym,
    obstacle: Obstacle,
    pos: Pos,
) -> Result<Visited, Memory>
    requires at { state.now.known.status ≡ IsBlockedBy obstacle pos }
    requires place { AtLoop codes.now state.now }
    ensures { IfOk result (IsAtBlock codes.now state.now) }
{
    let there = has_free_run(alloc, state)?;
    if there {
        return Ok(Visited::Open(obstacle, pos));
    }
    Ok(Visited::Gone)
}

/// What is seen at a state. Where it goes on, its next states are added to the pending ones.
pub fn visit(
    alloc: Global,
    codes: &Codes,
    state: Sym,
    pending: &mut Seq<Sym>,
) -> Result<Visited, Memory>
    ensures { IfOk result (Visits codes.now state pending.old pending.new) }
{
    match end(&state) {
        SymEnd::Going => {
            put_next(alloc, codes, state, pending)?;
            Ok(Visited::Goes)
        }
        SymEnd::Returned(_) => {
            let seen = at_end(alloc, codes, &state)?;
            Ok(seen)
        }
        SymEnd::Stopped(_) => {
            let seen = at_end(alloc, codes, &state)?;
            Ok(seen)
        }
        SymEnd::Blocked(obstacle, pos) => {
            let seen = at_block(alloc, codes, &state, obstacle, pos)?;
            Ok(seen)
        }
    }
}
