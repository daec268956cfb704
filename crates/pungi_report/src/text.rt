ghost use Rattle.std.specs.Prelude.{◌≡◌, ◌<◌, ◌++◌, length, string_bytes, OnOk, IfOk};
ghost use Rattle.std.specs.List.{All};
ghost use Rattle.pungi_report.specs.Text.{name_text, why_text, object_text, counts_text, fault_text, refusal_text};
ghost use Rattle.pungi_report.specs.Text.{verdict_text, report_text, IsNamedWhy, IsPrintable, IsLine};
ghost use Rattle.pungi_report.specs.Fits.{FitsLine};

use crate::fits::lines_fit;
use pungi_base::{Fault, Memory, Name, Names, Pos, Rule, Verdict, Why};
use std::alloc::Global;

/// Adds a word and a name.
fn push_named(text: &mut Vec<u8>, word: &str, names: &Names, name: Name) -> Result<(), Memory>
    requires { name.0 < length names.now }
    ensures { OnOk result (text.new.items ≡ text.old.items ++ word.now ++ name_text names.now name) }
{
    text.extend_from_slice(word.as_bytes())?;
    text.extend_from_slice(names.text(name))?;
    Ok(())
}

fn push_why(alloc: Global, text: &mut Vec<u8>, names: &Names, why: &Why) -> Result<(), Memory>
    requires { IsNamedWhy names.now why.now }
    ensures { OnOk result (text.new.items ≡ text.old.items ++ why_text names.now why.now) }
{
    let told = match why {
        Why::Traces => format!(in alloc; "traces")?,
        Why::Shapes => format!(in alloc; "shapes")?,
        Why::Range { pos, .. } => format!(in alloc; "range {pos}")?,
        Why::Number { pos } => format!(in alloc; "number {pos}")?,
        Why::Loop { pos } => format!(in alloc; "loop {pos}")?,
        Why::Call { pos, name } => {
            let call = format!(in alloc; "call {pos} ")?;
            return push_named(text, call.as_str(), names, *name);
        }
    };
    text.extend_from_slice(told.as_bytes())?;
    Ok(())
}

fn object_of(alloc: Global, fault: &Fault) -> Result<String, Memory>
    ensures { IfOk result (λ text. string_bytes text ≡ object_text fault.now) }
{
    let Fault { pos, object, .. } = fault;
    Ok(format!(in alloc; " {pos} object {object}")?)
}

fn counts_of(alloc: Global, fault: &Fault) -> Result<String, Memory>
    ensures { IfOk result (λ text. string_bytes text ≡ counts_text fault.now) }
{
    let Fault {
        change,
        escaped,
        ..
    } = fault;
    Ok(format!(in alloc; " change {change} escaped {escaped}\n")?)
}

fn push_fault(alloc: Global, text: &mut Vec<u8>, fault: &Fault) -> Result<(), Memory>
    requires { length fault.now.used ≡ length fault.now.witness.choices }
    ensures { OnOk result (text.new.items ≡ text.old.items ++ fault_text fault.now) }
{
    text.extend_from_slice(object_of(alloc, fault)?.as_bytes())?;
    text.extend_from_slice(counts_of(alloc, fault)?.as_bytes())?;
    let run = fault.witness.text(alloc, fault.used.as_slice())?;
    text.extend_from_slice(&run)?;
    Ok(())
}

fn push_refusal(alloc: Global, text: &mut Vec<u8>, pos: Pos, rule: Rule) -> Result<(), Memory>
    ensures { OnOk result (text.new.items ≡ text.old.items ++ refusal_text pos rule) }
{
    let Rule(number) = rule;
    let line = format!(in alloc; " {pos} N{number}\n")?;
    text.extend_from_slice(line.as_bytes())?;
    Ok(())
}

fn push_verdict(
    alloc: Global,
    text: &mut Vec<u8>,
    names: &Names,
    name: Name,
    verdict: &Verdict,
) -> Result<(), Memory>
    requires named { name.0 < length names.now }
    requires printable { IsPrintable names.now verdict.now }
    ensures { OnOk result (text.new.items ≡ text.old.items ++ verdict_text names.now name verdict.now) }
{
    match verdict {
        Verdict::Clean => {
            push_named(text, "clean ", names, name)?;
            text.push(b'\n')?;
        }
        Verdict::Faulty(fault) => {
            push_named(text, "faulty ", names, name)?;
            push_fault(alloc, text, fault)?;
        }
        Verdict::Unknown(why) => {
            push_named(text, "unknown ", names, name)?;
            text.push(b' ')?;
            push_why(alloc, text, names, why)?;
            text.push(b'\n')?;
        }
        Verdict::Refused(pos, rule) => {
            push_named(text, "refused ", names, name)?;
            push_refusal(alloc, text, *pos, *rule)?;
        }
    }
    Ok(())
}

/// The text of the report on functions of these names with these verdicts, in their order.
pub fn report(alloc: Global, names: &Names, lines: &[(Name, Verdict)]) -> Result<Vec<u8>, Memory>
    requires { All (IsLine names.now) lines.now }
    ensures text { IfOk result (λ text. text.items ≡ report_text names.now lines.now) }
    ensures fits { All FitsLine lines.now }
{
    lines_fit(lines);
    let mut text = Vec::new(alloc);
    for line in lines {
        push_verdict(alloc, &mut text, names, line.0, &line.1)?;
    }
    Ok(text)
}
