//! The affine program of a function, from its text.
ghost use Rattle.std.specs.Prelude.{◌≡◌, ◌≤◌, not, length, IfOk, IsTrue};
ghost use Rattle.pungi_base.specs.Words.{builtin_words};
ghost use Rattle.pungi_check.specs.Found.{IsChecked};
ghost use Rattle.pungi_code.specs.Alone.{calls_none, CallsNone};
ghost use Rattle.pungi_code.specs.WellFormed.{AreWellFormed};
ghost use Rattle.pungi_domain.specs.Programs.{IsWellFormed};
ghost use Rattle.pungi_lex.specs.Limits.{token_limit};
ghost use Rattle.pungi_tree.specs.UnitFlat.{items_flat};
ghost use Rattle.pungi_tree.specs.UnitView.{unit_view};

use pungi_api::{FileTerms, Table};
use pungi_base::{Memory, Name, Names, Seq};
use pungi_check::{Checked, check};
use pungi_code::{Codes, Instr, Line, stands_alone};
use pungi_domain::AffineProgram;
use pungi_lex::{TEXT_LIMIT, expand, lex};
use pungi_lower::lower;
use pungi_parse::parse;
use pungi_shape::graph;
use pungi_tree::Unit;
use std::alloc::Global;
use std::test::Fail;

fn unit_of(alloc: Global, names: &mut Names, text: &str) -> Result<Unit, Fail>
    requires { names.old ≡ builtin_words }
    ensures { IfOk result (λ unit. length (items_flat (unit_view unit)) ≤ token_limit) }
{
    if text.len() > TEXT_LIMIT {
        return Err(Fail::new("a text that is too long"));
    }
    let tokens = lex(alloc, names, text.as_bytes())?;
    if names.len() > 1 << 31 {
        return Err(Fail::new("too many names"));
    }
    let expanded = expand(alloc, names, &tokens)?;
    Ok(parse(alloc, &expanded)?)
}

fn names_of(alloc: Global, names: &[Name]) -> Result<Seq<Name>, Memory>
    ensures { IfOk result (λ copy. copy ≡ names.now) }
{
    Ok(Seq::new(Vec::from_slice(alloc, names)?))
}

fn codes_of(alloc: Global, checked: &Checked<'_>) -> Result<Codes, Memory>
    requires { IsChecked checked.now }
    ensures { IfOk result (λ codes. AreWellFormed codes) }
{
    let names = names_of(alloc, checked.names.as_slice())?;
    let codes = lower(alloc, &checked.resolved, names, checked.statics)?;
    Ok(codes)
}

fn is_call(instr: &Instr) -> bool
    ensures { result ≡ not (calls_none instr.now) }
{
    match instr {
        Instr::Call(_, _, _) => true,
        _ => false,
    }
}

fn calls_none(lines: &[Line]) -> bool
    ensures { IsTrue result → CallsNone lines.now }
{
    for line in lines {
        if is_call(&line.instr) {
            return false;
        }
    }
    true
}

fn first_program(alloc: Global, codes: &Codes) -> Result<AffineProgram, Fail>
    requires { AreWellFormed codes.now }
    ensures { IfOk result (λ program. IsWellFormed program) }
{
    match codes.codes.as_slice() {
        [Some(code)] => {
            if !calls_none(code.instrs.as_slice()) {
                return Err(Fail::new("the function calls one of the text"));
            }
            stands_alone(codes, 0);
            Ok(graph(alloc, codes, 0)?)
        }
        _ => Err(Fail::new("there is no code, or more than one")),
    }
}

/// The affine program of the one function of a text.
pub(crate) fn program_of(alloc: Global, text: &str) -> Result<AffineProgram, Fail>
    ensures { IfOk result (λ program. IsWellFormed program) }
{
    let rows = Table::builtin(alloc)?;
    let terms = FileTerms::manual(alloc);
    let mut names = Names::builtin(alloc)?;
    let unit = unit_of(alloc, &mut names, text)?;
    let checked = check(alloc, &names, &unit, &rows, &terms)?;
    let codes = codes_of(alloc, &checked)?;
    first_program(alloc, &codes)
}
