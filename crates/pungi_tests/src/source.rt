//! Files for the tests, from their texts.
ghost use Rattle.std.specs.Prelude.{◌≡◌, ◌≤◌, ℕ, length, IfOk};
ghost use Rattle.pungi_base.specs.Words.{builtin_words};
ghost use Rattle.pungi_code.specs.WellFormed.{AreWellFormed};
ghost use Rattle.pungi_lex.specs.Limits.{token_limit};
ghost use Rattle.pungi_symbol.specs.Promises.{HasImmortals};
ghost use Rattle.pungi_tree.specs.UnitFlat.{items_flat};
ghost use Rattle.pungi_tree.specs.UnitView.{unit_view};

use pungi_api::{FileTerms, Table};
use pungi_base::Names;
use pungi_check::check;
use pungi_code::Codes;
use pungi_lex::{TEXT_LIMIT, expand, lex};
use pungi_lower::lower;
use pungi_parse::parse;
use pungi_resolved::Function;
use pungi_tree::Unit;
use std::alloc::Global;
use std::test::Fail;

/// The sum of the numbers from 1 on.
pub(crate) const SUM: &str =
    "int f(int n) { int s = 0; while (n) { s = s + n; n = n - 1; } return s; }";

fn unit_of(alloc: Global, names: &mut Names, text: &str) -> Result<Unit, Fail>
    requires { names.old ≡ builtin_words }
    ensures { IfOk result (λ unit. length (items_flat (unit_view unit)) ≤ token_limit) }
{
    if text.len() > TEXT_LIMIT {
        return Err(Fail::new("a text that is too long"));
    }
    let tokens = lex(alloc, names, text.as_bytes())?;
    if names.len() > 1 << 31 {
        return Err(Fail::new("too many names"));
    }
    let expanded = expand(alloc, names, &tokens)?;
    Ok(parse(alloc, &expanded)?)
}

/// The last function of a text, resolved.
pub(crate) fn function_of(alloc: Global, text: &str) -> Result<Function, Fail> {
    let rows = Table::builtin(alloc)?;
    let terms = FileTerms::manual(alloc);
    let mut names = Names::builtin(alloc)?;
    let unit = unit_of(alloc, &mut names, text)?;
    let mut checked = check(alloc, &names, &unit, &rows, &terms)?;
    match checked.resolved.pop() {
        Some(Some(f)) => Ok(f),
        _ => Err(Fail::new("there is no function, or it is refused")),
    }
}

/// The functions of a text, resolved.
pub(crate) fn functions_of(alloc: Global, text: &str) -> Result<Vec<Option<Function>>, Fail> {
    let rows = Table::builtin(alloc)?;
    let terms = FileTerms::manual(alloc);
    let mut names = Names::builtin(alloc)?;
    let unit = unit_of(alloc, &mut names, text)?;
    let checked = check(alloc, &names, &unit, &rows, &terms)?;
    Ok(checked.resolved)
}

/// The codes of a text's functions.
pub(crate) fn codes_of(alloc: Global, text: &str) -> Result<Codes, Fail>
    ensures formed { IfOk result (λ codes. AreWellFormed codes) }
    ensures immortals { IfOk result (λ codes. (f : ℕ) → HasImmortals codes f) }
{
    let rows = Table::builtin(alloc)?;
    let terms = FileTerms::manual(alloc);
    let mut names = Names::builtin(alloc)?;
    let unit = unit_of(alloc, &mut names, text)?;
    let checked = check(alloc, &names, &unit, &rows, &terms)?;
    let own = checked.names;
    let codes = lower(alloc, &checked.resolved, own, checked.statics)?;
    Ok(codes)
}
