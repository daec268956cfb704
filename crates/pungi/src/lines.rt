//! What is written of verdicts, and the status that goes with them.
ghost use Rattle.std.specs.Prelude.{◌≡◌, ◌≤◌, ◌++◌, IfOk, OnOk, string_bytes};
ghost use Rattle.std.specs.Fmt.{decimal};
ghost use Rattle.std.specs.List.{All, list_any};
ghost use Rattle.pungi_report.specs.Text.{IsLine};
ghost use Rattle.pungi.specs.Examine.{IsReportOn, count, is_clean, is_faulty, is_open, is_refused, is_unknown};
ghost use Rattle.pungi.specs.Examine.{status_of, trial_report};
ghost use Rattle.pungi.specs.Status.{some_open};

use crate::answer::Answer;
use crate::status::{ALL_CLEAN, SOME_FAULTY, SOME_OPEN};
use pungi_base::{Memory, Name, Names, Verdict};
use pungi_report::{report, report_is_read_back};
use std::alloc::Global;
use std::fmt::Write;

fn is_clean(verdict: &Verdict) -> bool
    ensures { result ≡ is_clean verdict.now }
{
    match verdict {
        Verdict::Clean => true,
        Verdict::Faulty(_) | Verdict::Unknown(_) | Verdict::Refused(..) => false,
    }
}

fn is_faulty(verdict: &Verdict) -> bool
    ensures { result ≡ is_faulty verdict.now }
{
    match verdict {
        Verdict::Faulty(_) => true,
        Verdict::Clean | Verdict::Unknown(_) | Verdict::Refused(..) => false,
    }
}

fn is_unknown(verdict: &Verdict) -> bool
    ensures { result ≡ is_unknown verdict.now }
{
    match verdict {
        Verdict::Unknown(_) => true,
        Verdict::Clean | Verdict::Faulty(_) | Verdict::Refused(..) => false,
    }
}

fn is_refused(verdict: &Verdict) -> bool
    ensures { result ≡ is_refused verdict.now }
{
    match verdict {
        Verdict::Refused(..) => true,
        Verdict::Clean | Verdict::Faulty(_) | Verdict::Unknown(_) => false,
    }
}

fn is_open(verdict: &Verdict) -> bool
    ensures { result ≡ is_open verdict.now }
{
    match verdict {
        Verdict::Unknown(_) | Verdict::Refused(..) => true,
        Verdict::Clean | Verdict::Faulty(_) => false,
    }
}

fn has_fault(lines: &[(Name, Verdict)]) -> bool
    ensures { result ≡ list_any (λ line. is_faulty line.1) lines.now }
{
    lines.iter().any(|line| is_faulty(&line.1))
}

fn has_open(lines: &[(Name, Verdict)]) -> bool
    ensures { result ≡ list_any (λ line. is_open line.1) lines.now }
{
    lines.iter().any(|line| is_open(&line.1))
}

/// The status that goes with these verdicts.
pub fn status_of(lines: &[(Name, Verdict)]) -> u8
    ensures { result ≡ status_of lines.now }
{
    if has_fault(lines) {
        SOME_FAULTY
    } else if has_open(lines) {
        SOME_OPEN
    } else {
        ALL_CLEAN
    }
}

/// The report of these verdicts, with the status that goes with them.
pub(crate) fn report_answer(
    alloc: Global,
    names: &Names,
    lines: &[(Name, Verdict)],
) -> Result<Answer, Memory>
    requires { All (IsLine names.now) lines.now }
    ensures { IfOk result (λ a. (a.status ≤ some_open)
        × IsReportOn names.now lines.now a.status a.text.items) }
{
    report_is_read_back();
    Ok(Answer {
        status: status_of(lines),
        text: report(alloc, names, lines)?,
    })
}

fn cleans(lines: &[(Name, Verdict)]) -> usize
    ensures { result ≡ count is_clean lines.now }
{
    lines.iter().filter(|line| is_clean(&line.1)).count()
}

fn faults(lines: &[(Name, Verdict)]) -> usize
    ensures { result ≡ count is_faulty lines.now }
{
    lines.iter().filter(|line| is_faulty(&line.1)).count()
}

fn unknowns(lines: &[(Name, Verdict)]) -> usize
    ensures { result ≡ count is_unknown lines.now }
{
    lines.iter().filter(|line| is_unknown(&line.1)).count()
}

fn refusals(lines: &[(Name, Verdict)]) -> usize
    ensures { result ≡ count is_refused lines.now }
{
    lines.iter().filter(|line| is_refused(&line.1)).count()
}

/// Adds a word and a number.
fn push_count(text: &mut String, word: &str, count: usize) -> Result<(), Memory>
    ensures { OnOk result (string_bytes text.new ≡ string_bytes text.old ++ word.now ++ decimal count) }
{
    text.push_str(word)?;
    write!(text, "{count}")?;
    Ok(())
}

/// The line of a trial of so many functions.
fn trial_line(alloc: Global, n: u32, lines: &[(Name, Verdict)]) -> Result<String, Memory>
    ensures { IfOk result (λ line. string_bytes line ≡ trial_report n lines.now) }
{
    let mut text = format!(in alloc; "trial {n}")?;
    push_count(&mut text, " clean ", cleans(lines))?;
    push_count(&mut text, " faulty ", faults(lines))?;
    push_count(&mut text, " unknown ", unknowns(lines))?;
    push_count(&mut text, " refused ", refusals(lines))?;
    text.push_str("\n")?;
    Ok(text)
}

/// The line of a trial of so many functions with these verdicts, with the status that goes with them.
pub(crate) fn trial_answer(
    alloc: Global,
    n: u32,
    lines: &[(Name, Verdict)],
) -> Result<Answer, Memory>
    ensures { IfOk result (λ a. (a.status ≤ some_open) × (a.status ≡ status_of lines.now)
        × (a.text.items ≡ trial_report n lines.now)) }
{
    Ok(Answer {
        status: status_of(lines),
        text: trial_line(alloc, n, lines)?.into_bytes(),
    })
}
