ghost use Rattle.std.specs.Prelude.{◌≡◌, IfOk, option_map, List, ℕ, Some};
ghost use Rattle.pungi_base.specs.declared.pos.Pos.{Pos as ThePos};
ghost use Rattle.pungi.specs.Front.{lex_reason, macro_reason, parse_reason, unit_reason, reason_of, refused_text};
ghost use Rattle.pungi.specs.Status.{file_refused};

use crate::answer::Answer;
use crate::file_fault::FileFault;
use crate::status::FILE_REFUSED;
use pungi_base::{Memory, Pos};
use pungi_check::UnitFault;
use pungi_lex::{LexFault, MacroFault};
use pungi_parse::ParseFault;
use std::alloc::Global;

fn lex_reason(fault: &LexFault) -> Option<(Pos, &'static str)>
    ensures { option_map (λ x. (x.0, x.1.now)) result ≡ lex_reason fault.now }
{
    match fault {
        LexFault::Memory => None,
        LexFault::Byte(at) => Some((*at, "byte")),
        LexFault::OpenComment(at) => Some((*at, "open comment")),
        LexFault::OpenText(at) => Some((*at, "open text")),
        LexFault::Number(at) => Some((*at, "number")),
    }
}

fn macro_reason(fault: &MacroFault) -> Option<(Pos, &'static str)>
    ensures { option_map (λ x. (x.0, x.1.now)) result ≡ macro_reason fault.now }
{
    match fault {
        MacroFault::Memory => None,
        MacroFault::Directive(at) => Some((*at, "directive")),
        MacroFault::FunctionMacro(at) => Some((*at, "function macro")),
        MacroFault::Redefined(at) => Some((*at, "redefined")),
        MacroFault::TooManyTokens(at) => Some((*at, "too many tokens")),
    }
}

fn parse_reason(fault: &ParseFault) -> Option<(Pos, &'static str)>
    ensures { option_map (λ x. (x.0, x.1.now)) result ≡ parse_reason fault.now }
{
    match fault {
        ParseFault::Memory => None,
        ParseFault::Deep(at) => Some((*at, "nested over 64")),
        ParseFault::NotAUnit(at) => Some((*at, "not a unit")),
    }
}

fn unit_reason(fault: &UnitFault) -> Option<(Pos, &'static str)>
    ensures { option_map (λ x. (x.0, x.1.now)) result ≡ unit_reason fault.now }
{
    match fault {
        UnitFault::Memory => None,
        UnitFault::DuplicateName(at) => Some((*at, "duplicate name")),
        UnitFault::TooManyFunctions(at) => Some((*at, "too many functions")),
    }
}

/// The place of a fault and its reason. None for want of memory.
fn reason_of(fault: &FileFault) -> Option<(Pos, &'static str)>
    ensures { option_map (λ x. (x.0, x.1.now)) result ≡ reason_of fault.now }
{
    match fault {
        FileFault::Lex(fault) => lex_reason(fault),
        FileFault::Macro(fault) => macro_reason(fault),
        FileFault::Parse(fault) => parse_reason(fault),
        FileFault::Unit(fault) => unit_reason(fault),
        FileFault::Memory => None,
    }
}

fn refusal_line(alloc: Global, at: Pos, reason: &str) -> Result<Vec<u8>, Memory>
    ensures { IfOk result (λ text. text.items ≡ refused_text at reason.now) }
{
    let place = format!(in alloc; "file refused {at} ")?;
    let mut text = Vec::from_slice(alloc, place.as_bytes())?;
    text.extend_from_slice(reason.as_bytes())?;
    text.push(b'\n')?;
    Ok(text)
}

/// That a file is refused, and why.
pub(crate) fn refusal_answer(alloc: Global, fault: &FileFault) -> Result<Answer, Memory>
    ensures { IfOk result (λ a. (a.status ≡ file_refused)
        × ((at : ThePos) × (reason : List ℕ) × (reason_of fault.now ≡ Some (at, reason))
        × (a.text.items ≡ refused_text at reason))) }
{
    let Some((at, reason)) = reason_of(fault) else {
        return Err(Memory);
    };
    Ok(Answer {
        status: FILE_REFUSED,
        text: refusal_line(alloc, at, reason)?,
    })
}
