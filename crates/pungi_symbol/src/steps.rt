// The calls on symbolic states.
ghost use Rattle.std.specs.Prelude.{◌≡◌, ◌∷◌, ℕ, IfOk, OnOk, IfSome, is_some, true, false, All, List};
ghost use Rattle.pungi_code.specs.declared.code.Code.{Code};
ghost use Rattle.pungi_symbol.specs.declared.answers.decision.Decision.{Decision as DecisionOf};
ghost use Rattle.pungi_code.specs.declared.code.Codes.{Codes as CodesOf};
ghost use Rattle.pungi_code.specs.Run.{code_at};
ghost use Rattle.pungi_symbol.specs.runs.Paths.{end_of, start_states, start_state, values_of, Path, GoesBack, AreApart};
ghost use Rattle.pungi_symbol.specs.runs.Paths.{HasNoTable};
ghost use Rattle.pungi_symbol.specs.runs.AtZero.{HasNoZeroTable};
ghost use Rattle.pungi_symbol.specs.Promises.{next_states, lines_of, Covers, IsReached, IsRunOf, HasFreeRun, IsOwn};
ghost use Rattle.pungi_symbol.specs.Promises.{HasEachChoice, AllLevel, OwnUneven, HasReturned, HasNoRun};
ghost use Rattle.pungi_symbol.specs.answers.KnownAfter.{number_place};
ghost use Rattle.pungi_symbol.specs.Promises.{IsShortRunOf, AtLoop, RunsOn, IsLevelIn, IsOffIn};

use crate::answers::successors::{next_from, next_of};
use crate::runs::begin::first_of;
use crate::runs::numbers::{has_model, real_model_of};
use crate::runs::return_balance::is_level;
use crate::runs::witness::{has_few_tokens, run_of};
use crate::states::code_lines::{code_of, lines};
use crate::states::known::Status;
use crate::states::number_places::place_among;
use crate::{Decision, Sym, SymEnd};
use pungi_base::{Memory, Pos, Witness};
use pungi_code::Codes;
use std::alloc::Global;

/// The state at the start of a function, where it has code. If the code is of the judged form, each run of it wants a
/// choice that isn't there, or it is, after each instruction, in a state at the end of a path that begins here, and has
/// the path's answers as its trace, or it was in such a state where its path isn't followed further: before an
/// instruction that compares a pointer with a number or computes with a pointer, at a loop's head that it reached a
/// third time, or after 16,384 instructions. A computation that is no sum of a token and a constant has the run's own
/// result there.
pub fn start(alloc: Global, codes: &Codes, f: usize) -> Result<Vec<(Decision, Sym)>, Memory>
    ensures first { IfOk result (λ first. first.items ≡ start_states codes.now.statics f (code_at codes.now f)) }
    ensures forward { IfOk result (λ _. Covers codes.now f) }
{
    let first = first_of(alloc, codes, f)?;
    Ok(first)
}

/// The next states of a code of the judged form, each with its answer: each answer that a run in this state may give is
/// there, and no other.
pub fn step(alloc: Global, codes: &Codes, state: &Sym) -> Result<Vec<(Decision, Sym)>, Memory>
    ensures next { IfOk result (λ next. next.items ≡ next_states codes.now state.now) }
    ensures path { IfOk result (λ next. (code : Code) (ds : List DecisionOf) → IsReached codes.now state.now ds code
        → All (λ p. Path code.instrs (start_state codes.now.statics state.now.known.function code) (p.0 ∷ ds) p.1)
        next.items) }
    ensures back { IfOk result (λ next. (code : Code) (ds : List DecisionOf) → IsReached codes.now state.now ds code
        → All (GoesBack code.instrs state.now) next.items) }
{
    let next = next_of(alloc, codes, state)?;
    Ok(next)
}

/// As `step`, and the state is used up: where there is one answer the state itself is changed, and nothing is copied.
pub fn step_from(alloc: Global, codes: &Codes, state: Sym) -> Result<Vec<(Decision, Sym)>, Memory>
    ensures next { IfOk result (λ next. next.items ≡ next_states codes.now state) }
    ensures path { IfOk result (λ next. (code : Code) (ds : List DecisionOf) → IsReached codes.now state ds code
        → All (λ p. Path code.instrs (start_state codes.now.statics state.known.function code) (p.0 ∷ ds) p.1)
        next.items) }
    ensures back { IfOk result (λ next. (code : Code) (ds : List DecisionOf) → IsReached codes.now state ds code
        → All (GoesBack code.instrs state) next.items) }
{
    let next = next_from(alloc, codes, state)?;
    Ok(next)
}

/// The most instructions that one call of `run_on` does.
const MOST_AT_ONCE: usize = 1024;

/// Goes on in place, up to an instruction that asks something: by answers that are the only ones that a question has.
pub fn run_on(alloc: Global, codes: &Codes, state: &mut Sym) -> Result<(), Memory>
    ensures { OnOk result (RunsOn codes.now state.old state.new) }
{
    'instructions: for _ in 0..MOST_AT_ONCE {
        let code = lines(codes, state.state().known.function);
        if !state.advance(alloc, code)? {
            return Ok(());
        }
    }
    Ok(())
}

/// How a state ends. At a loop it is reported by the place of that loop's head.
pub fn end(state: &Sym) -> SymEnd
    ensures is { result ≡ end_of state.now.known.status }
    ensures place { (codes : CodesOf) → AtLoop codes state.now }
{
    match state.state().known.status {
        Status::Going => SymEnd::Going,
        Status::Returned(pos, _) => SymEnd::Returned(pos),
        Status::Stopped(pos) => SymEnd::Stopped(pos),
        Status::Blocked(obstacle, pos) => SymEnd::Blocked(obstacle, pos),
    }
}

/// A run that ends in a state that `start` and calls of `step` gave, if one is found. It has the answers of each path
/// to the state as its trace and uses each of its choices, and tokens that were not merged are different objects. It is
/// found wherever there is one, unless the path has a computation that is no sum: then one is found wherever there is
/// one in which each number that enters such a computation is 0.
///
/// `Memory` is also reported for a state of 2^31 tokens or more, since no entry has so many objects, and for one that
/// notes bounds of numbers or has such computations, where its tokens and computations are together 65,536 or more, or
/// these bounds, with two for each number that came in and six for each computation, are more than that, or where one
/// of them is of a token that isn't there or is no number, or lies beyond 2^65, or where a computation takes the result
/// of one that isn't earlier on the path.
pub fn solve(alloc: Global, codes: &Codes, state: &Sym) -> Result<Option<Witness>, Memory>
    ensures none { IfOk result (λ o. is_some o ≡ false → HasNoZeroTable state.now) }
    ensures run { IfOk result (λ o. IfSome o (λ w. IsRunOf codes.now state.now w)) }
    ensures short { IfOk result (λ o. IfSome o (λ w. IsShortRunOf codes.now state.now w)) }
    ensures own { IfOk result (λ o. IfSome o (λ w. IsOwn codes.now state.now w)) }
    ensures each { IfOk result (λ o. IfSome o (λ w. HasEachChoice codes.now state.now w)) }
    ensures apart { IfOk result (λ o. IfSome o (λ w. (code : Code) (ds : List DecisionOf)
        → IsReached codes.now state.now ds code → AreApart state.now (values_of codes.now.statics w.input w.choices))) }
{
    match real_model_of(alloc, state.state())? {
        None => Ok(None),
        Some(model) => {
            let witness = run_of(alloc, codes, state, model.tokens.as_slice())?;
            Ok(Some(witness))
        }
    }
}

/// Whether a state that `start` and calls of `step` gave has a run, if a computation that is no sum may give any
/// number. One that has none leads to none that has one. `Memory` is reported only where `solve` reports it.
pub fn has_free_run(alloc: Global, state: &Sym) -> Result<bool, Memory>
    ensures run { IfOk result (λ b. b ≡ true → (codes : CodesOf) → HasFreeRun codes state.now) }
    ensures none { IfOk result (λ b. b ≡ false → HasNoTable state.now) }
    ensures dead { IfOk result (λ b. b ≡ false → (codes : CodesOf) → HasNoRun codes state.now) }
{
    if !has_few_tokens(state.state()) {
        return Err(Memory);
    }
    let there = has_model(alloc, state.state())?;
    Ok(there)
}

/// The place by which the path of a state is reported, if it has a computation that is no sum: the first in the text at
/// which it compares the result of one; where it compares none, the first such computation.
pub fn number_place(state: &Sym) -> Option<Pos>
    ensures { result ≡ number_place state.now.known }
{
    let known = &state.state().known;
    if known.computed.is_empty() {
        return None;
    }
    Some(place_among(known.places))
}

/// Whether each run that ends in a state returns balanced, under the terms of its code; so it is true where the state
/// hasn't returned. Where it is false the state's own run returns and isn't balanced.
pub fn is_balanced(codes: &Codes, state: &Sym) -> bool
    ensures balanced { result ≡ true → AllLevel codes.now state.now }
    ensures level { result ≡ true → IsLevelIn codes.now state.now }
    ensures returned { result ≡ false → HasReturned state.now }
    ensures off { result ≡ false → IsOffIn codes.now state.now }
    ensures uneven { result ≡ false → OwnUneven codes.now state.now }
{
    let noted = state.state();
    match code_of(codes, noted.known.function) {
        Some(code) => is_level(code, noted),
        None => true,
    }
}
