// The verdict on a function by its code, with copies of the codes that it calls. What is judged is the idle code; a run
// that is found is one of the code.
ghost use Rattle.std.specs.Prelude.{◌≡◌, ◌<◌, ℕ, length, map, Some, IfOk};
ghost use Rattle.pungi_base.specs.declared.pos.Pos.{Pos as PosOf};
ghost use Rattle.pungi_code.specs.Alone.{CallsNone};
ghost use Rattle.pungi_code.specs.Run.{code_at};
ghost use Rattle.pungi_code.specs.WellFormed.{IsAlone};
ghost use Rattle.pungi_idle.specs.IdleCode.{idle};
ghost use Rattle.pungi_inline.specs.FirstCall.{first_call};
ghost use Rattle.pungi_resolve.specs.Resolutions.{resolution_view};
ghost use Rattle.pungi_resolved.specs.ActionView.{function_view};
ghost use Rattle.pungi_verdict.specs.Causes.{IsCut, IsDecided, IsDecidedBy, IsOpen};
ghost use Rattle.pungi_verdict.specs.Relations.{IsTriedIfMade};
ghost use Rattle.pungi_verdict.specs.Replays.{IsGiven, IsTrueAlike, ReturnsAlike};

use crate::relations::{Tried, tried_or_made, try_relations, verdict_after};
use crate::replay::replay;
use pungi_affine::Span;
use pungi_base::{Memory, Name, Pos, Verdict, Why};
use pungi_code::{Code, Codes};
use pungi_explore::{Explored, explore};
use pungi_idle::{idle_runs_alike, restored};
use pungi_inline::first_call;
use pungi_resolved::Function;
use pungi_shape::values_are_balanced;
use std::alloc::Global;

/// A code without loops of at most so many instructions is judged by its runs, and by equations only where these leave it
/// open. Each of up to 16,384 traces may cost the length of the code.
const MOST_RUN_FIRST: usize = 1_024;

/// The verdict on a function whose code calls none, and that exploring left open for this reason. What the search for
/// equations ended with is given, if it was made before.
fn judge_open(
    alloc: Global,
    codes: &Codes,
    i: usize,
    code: &Code,
    f: &Function,
    reason: Why,
    tried: Option<Tried>,
) -> Result<Verdict, Memory>
    requires code { code_at codes.now i ≡ Some (idle code.now) }
    requires given { IsGiven codes.now.statics (function_view f.now) code.now }
    requires none { CallsNone code.now.instrs }
    requires alone { IsAlone codes.now i }
    requires left_open { IsOpen codes.now i reason }
    requires tried { IsTriedIfMade codes.now i tried }
    ensures sound { IfOk result (λ v. IsTrueAlike codes.now.statics (function_view f.now) code.now v) }
    ensures decided { IfOk result (λ v. IsDecided codes.now i v) }
{
    values_are_balanced::<Span>();
    idle_runs_alike(codes.statics, code);
    let tried = tried_or_made(alloc, codes, i, tried)?;
    Ok(verdict_after(reason, tried))
}

/// The verdict by exploring, where the search for equations ended so, if it was made before.
fn judge_by_runs(
    alloc: Global,
    functions: &[Option<Function>],
    codes: &Codes,
    i: usize,
    code: &Code,
    f: &Function,
    tried: Option<Tried>,
) -> Result<Verdict, Memory>
    requires code { code_at codes.now i ≡ Some (idle code.now) }
    requires runs { ReturnsAlike (map resolution_view functions.now) codes.now.statics (function_view f.now) code.now }
    requires given { IsGiven codes.now.statics (function_view f.now) code.now }
    requires none { CallsNone code.now.instrs }
    requires alone { IsAlone codes.now i }
    requires tried { IsTriedIfMade codes.now i tried }
    ensures sound { IfOk result (λ v. IsTrueAlike codes.now.statics (function_view f.now) code.now v) }
    ensures decided { IfOk result (λ v. IsDecided codes.now i v) }
{
    idle_runs_alike(codes.statics, code);
    let explored = explore(alloc, codes, i)?;
    match explored {
        Explored::AllBalanced => Ok(Verdict::Clean),
        Explored::Fault(found) => {
            let witness = restored(alloc, codes.statics, code, found)?;
            let fault = replay(alloc, functions, f, code, witness)?;
            Ok(Verdict::Faulty(fault))
        }
        Explored::NumberSeen(pos) => {
            judge_open(alloc, codes, i, code, f, Why::Number { pos }, tried)
        }
        Explored::Cut(pos) => judge_open(alloc, codes, i, code, f, Why::Loop { pos }, tried),
        Explored::TooMany => judge_open(alloc, codes, i, code, f, Why::Traces, tried),
    }
}

/// The verdict on a function whose code calls none: by equations, which cost less than the runs of a code that is long
/// or has loops, and by its runs where there are none.
fn judge_by_equations(
    alloc: Global,
    functions: &[Option<Function>],
    codes: &Codes,
    i: usize,
    code: &Code,
    f: &Function,
) -> Result<Verdict, Memory>
    requires code { code_at codes.now i ≡ Some (idle code.now) }
    requires runs { ReturnsAlike (map resolution_view functions.now) codes.now.statics (function_view f.now) code.now }
    requires given { IsGiven codes.now.statics (function_view f.now) code.now }
    requires none { CallsNone code.now.instrs }
    requires alone { IsAlone codes.now i }
    ensures sound { IfOk result (λ v. IsTrueAlike codes.now.statics (function_view f.now) code.now v) }
    ensures decided { IfOk result (λ v. IsDecided codes.now i v) }
{
    values_are_balanced::<Span>();
    idle_runs_alike(codes.statics, code);
    let tried = try_relations(alloc, codes, i)?;
    if tried.is_found() {
        return Ok(Verdict::Clean);
    }
    judge_by_runs(alloc, functions, codes, i, code, f, Some(tried))
}

/// The verdict on a function whose code calls none.
fn judge_whole(
    alloc: Global,
    functions: &[Option<Function>],
    codes: &Codes,
    i: usize,
    code: &Code,
    f: &Function,
) -> Result<Verdict, Memory>
    requires code { code_at codes.now i ≡ Some (idle code.now) }
    requires runs { ReturnsAlike (map resolution_view functions.now) codes.now.statics (function_view f.now) code.now }
    requires given { IsGiven codes.now.statics (function_view f.now) code.now }
    requires none { CallsNone code.now.instrs }
    requires alone { IsAlone codes.now i }
    ensures sound { IfOk result (λ v. IsTrueAlike codes.now.statics (function_view f.now) code.now v) }
    ensures decided { IfOk result (λ v. IsDecided codes.now i v) }
{
    if code.heads.len() > 0 || code.instrs.len() > MOST_RUN_FIRST {
        judge_by_equations(alloc, functions, codes, i, code, f)
    } else {
        judge_by_runs(alloc, functions, codes, i, code, f, None)
    }
}

/// The verdict on a function whose code calls others: by its runs without these calls, the first of which is given by
/// its place and the number of the called function.
fn judge_cut(
    alloc: Global,
    functions: &[Option<Function>],
    names: &[Name],
    codes: &Codes,
    i: usize,
    code: &Code,
    f: &Function,
    call: (Pos, usize),
) -> Result<Verdict, Memory>
    requires code { code_at codes.now i ≡ Some (idle code.now) }
    requires runs { ReturnsAlike (map resolution_view functions.now) codes.now.statics (function_view f.now) code.now }
    requires given { IsGiven codes.now.statics (function_view f.now) code.now }
    requires call { first_call code.now.instrs ≡ Some call }
    requires named { call.1 < length names.now }
    ensures sound { IfOk result (λ v. IsTrueAlike codes.now.statics (function_view f.now) code.now v) }
    ensures decided { IfOk result (λ v. IsCut codes.now i names.now code.now v) }
{
    let left = Why::Call {
        pos: call.0,
        name: names[call.1],
    };
    idle_runs_alike(codes.statics, code);
    let explored = explore(alloc, codes, i)?;
    match explored {
        Explored::Fault(found) => {
            let witness = restored(alloc, codes.statics, code, found)?;
            let fault = replay(alloc, functions, f, code, witness)?;
            Ok(Verdict::Faulty(fault))
        }
        Explored::AllBalanced => Ok(Verdict::Unknown(left)),
        Explored::NumberSeen(_) => Ok(Verdict::Unknown(left)),
        Explored::Cut(_) => Ok(Verdict::Unknown(left)),
        Explored::TooMany => Ok(Verdict::Unknown(left)),
    }
}

/// The verdict on a function by its code.
pub(crate) fn judge_code(
    alloc: Global,
    functions: &[Option<Function>],
    names: &[Name],
    codes: &Codes,
    i: usize,
    code: &Code,
    f: &Function,
) -> Result<Verdict, Memory>
    requires code { code_at codes.now i ≡ Some (idle code.now) }
    requires runs { ReturnsAlike (map resolution_view functions.now) codes.now.statics (function_view f.now) code.now }
    requires given { IsGiven codes.now.statics (function_view f.now) code.now }
    requires alone { CallsNone code.now.instrs → IsAlone codes.now i }
    requires named { (at : PosOf) (g : ℕ) → first_call code.now.instrs ≡ Some (at, g) → g < length names.now }
    ensures sound { IfOk result (λ v. IsTrueAlike codes.now.statics (function_view f.now) code.now v) }
    ensures decided { IfOk result (λ v. IsDecidedBy codes.now i names.now code.now v (first_call code.now.instrs)) }
{
    match first_call(code) {
        Some(call) => judge_cut(alloc, functions, names, codes, i, code, f, call),
        None => judge_whole(alloc, functions, codes, i, code, f),
    }
}
