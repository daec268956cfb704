//! The verdicts on the functions of a checked file.
ghost use Rattle.std.specs.Prelude.{◌≡◌, ◌<◌, ◌≤◌, ◌+◌, ◌^◌, ℕ, List, Option, length, map, slice_get, Some, None, true};
ghost use Rattle.std.specs.Prelude.{IfOk};
ghost use Rattle.std.specs.List.{All, AllZip};
ghost use Rattle.pungi_check.specs.Found.{checked_view, IsChecked};
ghost use Rattle.pungi_code.specs.declared.code.Code.{Code as CodeOf};
ghost use Rattle.pungi_base.specs.declared.pos.Pos.{Pos as PosOf};
ghost use Rattle.pungi_code.specs.Alone.{CallsNone};
ghost use Rattle.pungi_code.specs.Limits.{steps_an_instruction};
ghost use Rattle.pungi_code.specs.Run.{code_at};
ghost use Rattle.pungi_code.specs.WellFormed.{AreWellFormed, IsAlone};
ghost use Rattle.pungi_idle.specs.IdleCode.{idle};
ghost use Rattle.pungi_inline.specs.FirstCall.{first_call};
ghost use Rattle.pungi_inline.specs.Inlined.{inlined};
ghost use Rattle.pungi_inline.specs.Laws.{one_code};
ghost use Rattle.pungi_layout.specs.alike.Correct.{Behaves};
ghost use Rattle.pungi_layout.specs.code.FunctionCode.{code_of};
ghost use Rattle.pungi_lower.specs.Lowered.{AreLowered, IsLowered};
ghost use Rattle.pungi_resolve.specs.Sound.{is_sound_action};
ghost use Rattle.pungi_resolve.specs.Resolutions.{resolution_view};
ghost use Rattle.pungi_resolved.specs.ActionView.{function_view};
ghost use Rattle.pungi_resolved.specs.Functions.{ResolvedFunction};
ghost use Rattle.pungi_symbol.specs.Promises.{HasImmortals};
ghost use Rattle.pungi_types.specs.Files.{Definition, definitions};
ghost use Rattle.pungi_verdict.specs.Replays.{IsGiven, IsTrueAlike, ReturnsAlike};
ghost use Rattle.pungi_verdict.specs.Causes.{IsCaused, IsDecidedAt, file_codes};
ghost use Rattle.pungi_verdict.specs.Refusals.{IsRefused, IsRefusedAt};
ghost use Rattle.pungi_verdict.specs.Sound.{IsSound, IsTrueOf};
ghost use Rattle.pungi_verdict.specs.Verdicts.{IsJudgedByCopies, IsReportable};

use crate::judge_across::judge_across;
use crate::judge_code::judge_code;
use pungi_base::{Memory, Name, Seq, Verdict};
use pungi_check::Checked;
use pungi_code::{Code, Codes};
use pungi_idle::{idle, idle_is_well_formed};
use pungi_inline::{inline, inlined_is_well_formed, inlined_runs_alike, one_code};
use pungi_lower::lower;
use pungi_resolved::Function;
use std::alloc::Global;

/// The verdict on a function by the idle code of a code that is judged for it.
fn judge_idle(
    alloc: Global,
    functions: &[Option<Function>],
    names: &[Name],
    statics: u32,
    lean: Code,
    code: &Code,
    f: &Function,
) -> Result<Verdict, Memory>
    requires lean { lean ≡ idle code.now }
    requires runs { ReturnsAlike (map resolution_view functions.now) statics (function_view f.now) code.now }
    requires given { IsGiven statics (function_view f.now) code.now }
    requires alone { CallsNone code.now.instrs → IsAlone (one_code statics f.now.name lean) 0 }
    requires named { (at : PosOf) (g : ℕ) → first_call code.now.instrs ≡ Some (at, g) → g < length names.now }
    ensures sound { IfOk result (λ v. IsTrueAlike statics (function_view f.now) code.now v) }
    ensures refused { IfOk result (λ v. IsRefusedAt None v) }
    ensures caused { IfOk result (λ v. IsDecidedAt names.now statics code.now v) }
{
    let own = one_code(alloc, statics, f.name, lean)?;
    judge_code(alloc, functions, names, &own, 0, code, f)
}

/// The verdict on a function in which no rule holds, by a code that is judged for it.
fn judge_at(
    alloc: Global,
    functions: &[Option<Function>],
    names: &[Name],
    codes: &Codes,
    i: usize,
    code: &Code,
    f: &Function,
) -> Result<Verdict, Memory>
    requires code { code_at codes.now i ≡ Some code.now }
    requires runs { ReturnsAlike (map resolution_view functions.now) codes.now.statics (function_view f.now) code.now }
    requires given { IsGiven codes.now.statics (function_view f.now) code.now }
    requires alone { CallsNone code.now.instrs → IsAlone codes.now i }
    requires named { (at : PosOf) (g : ℕ) → first_call code.now.instrs ≡ Some (at, g) → g < length names.now }
    ensures sound { IfOk result (λ v. IsTrueAlike codes.now.statics (function_view f.now) code.now v) }
    ensures refused { IfOk result (λ v. IsRefusedAt None v) }
    ensures caused { IfOk result (λ v. IsDecidedAt names.now codes.now.statics code.now v) }
{
    idle_is_well_formed(code);
    match idle(alloc, code)? {
        Some(lean) => judge_idle(alloc, functions, names, codes.statics, lean, code, f),
        None => judge_code(alloc, functions, names, codes, i, code, f),
    }
}

/// The verdict on a function in which no rule holds, by its code with copies of the codes that it calls.
fn judge_inlined(
    alloc: Global,
    functions: &[Option<Function>],
    codes: &Codes,
    name: Name,
    whole: Code,
    f: &Function,
) -> Result<Verdict, Memory>
    requires runs { ReturnsAlike (map resolution_view functions.now) codes.now.statics (function_view f.now) whole }
    requires given { IsGiven codes.now.statics (function_view f.now) whole }
    requires alone { CallsNone whole.instrs → IsAlone (one_code codes.now.statics name whole) 0 }
    requires named { (at : PosOf) (g : ℕ) → first_call whole.instrs ≡ Some (at, g) → g < length codes.now.names }
    ensures sound { IfOk result (λ v. IsTrueAlike codes.now.statics (function_view f.now) whole v) }
    ensures refused { IfOk result (λ v. IsRefusedAt None v) }
    ensures caused { IfOk result (λ v. IsDecidedAt codes.now.names codes.now.statics whole v) }
{
    let names = codes.names.as_slice();
    let own = one_code(alloc, codes.statics, name, whole)?;
    match &own.codes.as_slice()[0] {
        Some(code) => judge_at(alloc, functions, names, &own, 0, code, f),
        None => unreachable!(),
    }
}

/// The verdict on a function in which no rule holds.
fn judge(
    alloc: Global,
    functions: &[Option<Function>],
    codes: &Codes,
    i: usize,
    f: &Function,
) -> Result<Verdict, Memory>
    requires there { code_at codes.now i ≡ Some (code_of (function_view f.now)) }
    requires formed { AreWellFormed codes.now }
    requires lowered { (nodes : ℕ) × IsLowered (map resolution_view functions.now) codes.now.codes
        (function_view f.now) nodes (code_of (function_view f.now)) }
    requires words { is_sound_action (function_view f.now).body ≡ true }
    requires few { codes.now.statics ≤ 2 ^ 30 + 24 }
    requires immortals { HasImmortals codes.now i }
    ensures sound { IfOk result (λ v. (fs : List (Option ResolvedFunction))
        → Behaves fs codes.now.codes (function_view f.now) (code_of (function_view f.now)) steps_an_instruction
        → IsTrueOf fs codes.now.statics (function_view f.now) v) }
    ensures refused { IfOk result (λ v. IsRefusedAt None v) }
    ensures caused { IfOk result (λ v. IsDecidedAt codes.now.names codes.now.statics
        (inlined codes.now.codes (code_of (function_view f.now))) v) }
{
    let Some(code) = &codes.codes.as_slice()[i] else {
        unreachable!()
    };
    inlined_runs_alike(codes, i, code);
    inlined_is_well_formed(codes, i, code);
    let names = codes.names.as_slice();
    match inline(alloc, codes, code)? {
        Some(whole) => judge_inlined(alloc, functions, codes, names[i], whole, f),
        None => judge_at(alloc, functions, names, codes, i, code, f),
    }
}

/// The verdict on a function of a file by its code with copies of the codes that it calls.
fn verdict(alloc: Global, checked: &Checked<'_>, codes: &Codes, i: usize) -> Result<Verdict, Memory>
    requires there { i < length (definitions (checked_view checked.now).file.items) }
    requires checked { IsChecked checked.now }
    requires codes { codes.now ≡ file_codes (checked_view checked.now) }
    requires lowered { AreLowered (checked_view checked.now) codes.now.codes }
    requires formed { AreWellFormed codes.now }
    ensures { IfOk result (λ v. (d : Definition)
        → slice_get (definitions (checked_view checked.now).file.items) i ≡ Some d
        → IsJudgedByCopies (checked_view checked.now) d (d.name, v)) }
{
    match checked.refusals[i] {
        Some(finding) => Ok(Verdict::Refused(finding.pos, finding.rule)),
        None => match &checked.resolved[i] {
            Some(f) => Ok(judge(alloc, &checked.resolved, codes, i, f)?),
            None => unreachable!(),
        },
    }
}

/// The verdicts on the functions of a file, which have these names, by their codes with copies.
fn verdicts(
    alloc: Global,
    checked: &Checked<'_>,
    codes: &Codes,
    names: &[Name],
) -> Result<Vec<(Name, Verdict)>, Memory>
    requires named { names.now ≡ map (λ d. d.name) (definitions (checked_view checked.now).file.items) }
    requires checked { IsChecked checked.now }
    requires codes { codes.now ≡ file_codes (checked_view checked.now) }
    requires lowered { AreLowered (checked_view checked.now) codes.now.codes }
    requires formed { AreWellFormed codes.now }
    ensures { IfOk result (λ lines. AllZip (IsJudgedByCopies (checked_view checked.now))
        (definitions (checked_view checked.now).file.items) lines.items) }
{
    let mut lines = Vec::new(alloc);
    for (i, name) in names.iter().enumerate() {
        let verdict = verdict(alloc, checked, codes, i)?;
        lines.push((*name, verdict))?;
    }
    Ok(lines)
}

fn names_of(alloc: Global, names: &[Name]) -> Result<Seq<Name>, Memory>
    ensures { IfOk result (λ copy. copy ≡ names.now) }
{
    Ok(Seq::new(Vec::from_slice(alloc, names)?))
}

/// The codes of a checked file.
fn codes(alloc: Global, checked: &Checked<'_>) -> Result<Codes, Memory>
    requires { IsChecked checked.now }
    ensures codes { IfOk result (λ c. c ≡ file_codes (checked_view checked.now)) }
    ensures lowered { IfOk result (λ c. AreLowered (checked_view checked.now) c.codes) }
    ensures formed { IfOk result (λ c. AreWellFormed c) }
{
    let names = names_of(alloc, checked.names.as_slice())?;
    let codes = lower(alloc, &checked.resolved, names, checked.statics)?;
    Ok(codes)
}

/// The verdict on each function of a checked file, by its name, in the order of the file.
pub fn judge_all(alloc: Global, checked: &Checked<'_>) -> Result<Vec<(Name, Verdict)>, Memory>
    requires { IsChecked checked.now }

    // What a verdict says of a function is true: of a clean one each run that returns is balanced under its terms, from
    // any entry and with any choices; of a faulty one the run of its fault is not, and the fault reports the lowest
    // object that is counted and whose change there differs from its escapes.
    ensures sound { IfOk result (λ lines. AllZip (IsSound (checked_view checked.now))
        (definitions (checked_view checked.now).file.items) lines.items) }

    // A function in which a rule holds is refused by the rule, and no other is.
    ensures refused { IfOk result (λ lines. AllZip (IsRefused (checked_view checked.now))
        (definitions (checked_view checked.now).file.items) lines.items) }

    // A function in which no rule holds is judged by its code with copies of the codes that it calls. Its traces and
    // its affine program are those of the code in which each parameter that it neither names nor takes over is an
    // `int`. Where no call is left in it such a function is clean only where it has at most 16,384 traces and each run
    // is followed to its end, or where linear equations between its numbers that each step keeps show it. It is unknown
    // only where there are none, or its affine program or a span in it is too large, and it has more traces, or a run,
    // in which numbers that are computed may be any, returns unbalanced after one or comes to a bound of a loop, first
    // at the place that is reported. Where a call is left it is faulty, or unknown for the first such call, and then
    // exploring finds no fault in the runs without them. A function that this leaves unknown and that calls others is
    // clean where linear equations across all functions that it reaches by calls show it, and else it stays unknown;
    // for a call that is left only where there are no such equations.
    ensures caused { IfOk result (λ lines. AllZip (IsCaused (checked_view checked.now))
        (definitions (checked_view checked.now).file.items) lines.items) }

    // Each verdict can be reported.
    ensures reportable { IfOk result (λ lines. All (λ line. IsReportable (checked_view checked.now) line.1)
        lines.items) }
{
    let codes = codes(alloc, checked)?;
    let mut lines = verdicts(alloc, checked, &codes, checked.names.as_slice())?;
    judge_across(alloc, checked, &codes, &mut lines)?;
    Ok(lines)
}
