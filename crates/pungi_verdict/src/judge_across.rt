//! The verdicts on functions that call others and that their codes with copies leave open: by linear equations across
//! functions.
ghost use Rattle.std.specs.Prelude.{◌≡◌, ◌<◌, ◌^◌, ℕ, Some, true, false, length, slice_get, unwrap_or, IfOk, IsSome};
ghost use Rattle.std.specs.Prelude.{OnOk};
ghost use Rattle.std.specs.List.{AllZip};
ghost use Rattle.pungi_base.specs.declared.names.Name.{Name as NameOf};
ghost use Rattle.pungi_base.specs.declared.verdict.Verdict.{Verdict as VerdictOf};
ghost use Rattle.pungi_base.specs.declared.verdict.Verdict.TheVariants.{Unknown};
ghost use Rattle.pungi_check.specs.Found.{IsChecked, checked_view};
ghost use Rattle.pungi_code.specs.Run.{code_at};
ghost use Rattle.pungi_code.specs.WellFormed.{AreWellFormed};
ghost use Rattle.pungi_lower.specs.Lowered.{AreLowered};
ghost use Rattle.pungi_types.specs.Files.{definitions};
ghost use Rattle.pungi_verdict.specs.Across.{AreSummaries, CallsNoFunction, IsAcross, if_call, is_unknown};
ghost use Rattle.pungi_verdict.specs.Across.{verdict_across};
ghost use Rattle.pungi_verdict.specs.Causes.{file_codes};
ghost use Rattle.pungi_verdict.specs.Verdicts.{IsJudged, IsJudgedByCopies};

use crate::across::Across;
use crate::relations::Tried;
use pungi_affine::Span;
use pungi_base::{Memory, Name, Verdict, Why};
use pungi_check::Checked;
use pungi_code::Codes;
use pungi_inline::first_call;
use pungi_shape::{functions_are_reached, values_are_balanced_among};
use std::alloc::Global;

/// Whether a function calls one of the file.
fn calls_function(codes: &Codes, f: usize) -> bool
    requires { f < length codes.now.codes }
    ensures { result ≡ false → CallsNoFunction codes.now f }
{
    match &codes.codes.as_slice()[f] {
        Some(code) => first_call(code).is_some(),
        None => false,
    }
}

/// The verdict in the place of one that a function is unknown for this reason, where the search for equations across
/// functions ended so; none where that stays.
fn verdict_across(reason: &Why, tried: Tried) -> Option<Verdict>
    ensures { unwrap_or result (Unknown reason.now) ≡ verdict_across reason.now tried }
{
    match tried {
        Tried::Found => Some(Verdict::Clean),
        Tried::NotFound => None,
        Tried::TooLarge => if_call(reason, Why::Shapes),
        Tried::LargeSpan(pos, vector) => if_call(reason, Why::Range { pos, vector }),
    }
}

/// That a function is unknown for the second reason, where the first one is a call that is left.
fn if_call(reason: &Why, other: Why) -> Option<Verdict>
    ensures { unwrap_or result (Unknown reason.now) ≡ Unknown (if_call reason.now other) }
{
    match reason {
        Why::Call { .. } => Some(Verdict::Unknown(other)),
        _ => None,
    }
}

/// The verdict on a function in the place of that by its code with copies; none where that stays.
fn judge_again(
    alloc: Global,
    codes: &Codes,
    across: &Across,
    f: usize,
    first: &Verdict,
) -> Result<Option<Verdict>, Memory>
    requires summaries { AreSummaries codes.now across.now }
    requires there { f < length codes.now.codes }
    requires code { is_unknown first.now ≡ true → IsSome (code_at codes.now f) }
    requires few { length codes.now.codes < 2 ^ 32 }
    ensures { IfOk result (λ o. IsAcross codes.now f first.now (unwrap_or o first.now)) }
{
    let Verdict::Unknown(reason) = first else {
        return Ok(None);
    };
    if !calls_function(codes, f) {
        return Ok(None);
    }
    let tried = across.tried(alloc, codes, f)?;
    Ok(verdict_across(reason, tried))
}

/// Whether a function that calls one of the file is left open.
fn is_open_caller(codes: &Codes, f: usize, verdict: &Verdict) -> bool
    requires { f < length codes.now.codes }
    ensures { result ≡ false → is_unknown verdict.now ≡ true → CallsNoFunction codes.now f }
{
    match verdict {
        Verdict::Unknown(_) => calls_function(codes, f),
        _ => false,
    }
}

/// Whether some function that calls one of the file is left open.
fn has_open_caller(codes: &Codes, lines: &[(Name, Verdict)]) -> bool
    requires { length lines.now ≡ length codes.now.codes }
    ensures { result ≡ false → (f : ℕ) (line : NameOf × VerdictOf) → slice_get lines.now f ≡ Some line
        → is_unknown line.1 ≡ true → CallsNoFunction codes.now f }
{
    for (f, line) in lines.iter().enumerate() {
        if is_open_caller(codes, f, &line.1) {
            return true;
        }
    }
    false
}

/// Puts a verdict in the place of that of a line, if there is one.
fn put_verdict(lines: &mut Vec<(Name, Verdict)>, f: usize, verdict: Option<Verdict>)
    requires { f < length lines.old.items }
    ensures count { length lines.new.items ≡ length lines.old.items }
    ensures others { (i : ℕ) → (i ≡ f → ⊥) → slice_get lines.new.items i ≡ slice_get lines.old.items i }
    ensures here { (line : NameOf × VerdictOf) → slice_get lines.old.items f ≡ Some line
        → slice_get lines.new.items f ≡ Some (line.0, unwrap_or verdict line.1) }
{
    if let Some(verdict) = verdict {
        let name = lines[f].0;
        lines[f] = (name, verdict);
    }
}

/// Judges the functions of a file by equations across functions, where their codes with copies give these verdicts.
fn lines_across(
    alloc: Global,
    checked: &Checked<'_>,
    codes: &Codes,
    across: &Across,
    lines: &mut Vec<(Name, Verdict)>,
) -> Result<(), Memory>
    requires checked { IsChecked checked.now }
    requires codes { codes.now ≡ file_codes (checked_view checked.now) }
    requires lowered { AreLowered (checked_view checked.now) codes.now.codes }
    requires formed { AreWellFormed codes.now }
    requires summaries { AreSummaries codes.now across.now }
    requires lines { AllZip (IsJudgedByCopies (checked_view checked.now))
        (definitions (checked_view checked.now).file.items) lines.old.items }
    ensures { OnOk result (AllZip (IsJudged (checked_view checked.now))
        (definitions (checked_view checked.now).file.items) lines.new.items) }
{
    functions_are_reached();
    values_are_balanced_among::<Span>();
    for f in 0..codes.codes.len() {
        let verdict = judge_again(alloc, codes, across, f, &lines[f].1)?;
        put_verdict(lines, f, verdict);
    }
    Ok(())
}

/// Judges the functions of a file that call others and that are left open by equations across functions, where their
/// codes with copies give these verdicts.
pub(crate) fn judge_across(
    alloc: Global,
    checked: &Checked<'_>,
    codes: &Codes,
    lines: &mut Vec<(Name, Verdict)>,
) -> Result<(), Memory>
    requires checked { IsChecked checked.now }
    requires codes { codes.now ≡ file_codes (checked_view checked.now) }
    requires lowered { AreLowered (checked_view checked.now) codes.now.codes }
    requires formed { AreWellFormed codes.now }
    requires lines { AllZip (IsJudgedByCopies (checked_view checked.now))
        (definitions (checked_view checked.now).file.items) lines.old.items }
    ensures { OnOk result (AllZip (IsJudged (checked_view checked.now))
        (definitions (checked_view checked.now).file.items) lines.new.items) }
{
    if !has_open_caller(codes, lines.as_slice()) {
        return Ok(());
    }
    let across = Across::of(alloc, codes)?;
    lines_across(alloc, checked, codes, &across, lines)
}
