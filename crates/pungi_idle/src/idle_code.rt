// The idle code.
ghost use Rattle.std.specs.Prelude.{◌≡◌, ◌==◌, false, IfOk, MatchOption};
ghost use Rattle.std.specs.List.{list_any};
ghost use Rattle.pungi_idle.specs.IdleCode.{idle, idle_kind, idle_kinds, is_kept};

use crate::copies::{heads, lines};
use crate::named::is_named;
use pungi_api::Param;
use pungi_base::{Memory, Seq};
use pungi_code::{Code, Line};
use std::alloc::Global;

/// Whether the reference of the parameter at a place is taken over.
fn is_taken(taken: &[u32], x: usize) -> bool
    ensures { result ≡ list_any (λ p. p == x) taken.now }
{
    taken.iter().any(|p| *p as usize == x)
}

/// Whether the variable of this number stays as it is, where so many are parameters.
fn is_kept(lines: &[Line], taken: &[u32], params: usize, x: usize) -> bool
    ensures { result ≡ is_kept lines.now taken.now params x }
{
    params <= x || (is_named(lines, x) || is_taken(taken, x))
}

fn idle_kind(kept: bool, kind: Param) -> Param
    ensures { result ≡ idle_kind kept kind }
{
    match kind {
        Param::ObjectOrNull | Param::TextOrNull if !kept => Param::Int,
        _ => kind,
    }
}

fn is_idle(kept: bool, kind: Param) -> bool
    ensures { result ≡ false → idle_kind kept kind ≡ kind }
{
    match kind {
        Param::ObjectOrNull | Param::TextOrNull => !kept,
        _ => false,
    }
}

/// Whether there is a parameter that no instruction names, and that is no number.
fn has_idle(lines: &[Line], taken: &[u32], params: usize, kinds: &[Param]) -> bool
    ensures { result ≡ false → idle_kinds lines.now taken.now params 0 kinds.now ≡ kinds.now }
{
    for (x, kind) in kinds.iter().enumerate() {
        if is_idle(is_kept(lines, taken, params, x), *kind) {
            return true;
        }
    }
    false
}

fn idle_kinds(
    alloc: Global,
    lines: &[Line],
    taken: &[u32],
    params: usize,
    kinds: &[Param],
) -> Result<Vec<Param>, Memory>
    ensures { IfOk result (λ out. out.items ≡ idle_kinds lines.now taken.now params 0 kinds.now) }
{
    let mut out = Vec::new(alloc);
    for (x, kind) in kinds.iter().enumerate() {
        out.push(idle_kind(is_kept(lines, taken, params, x), *kind))?;
    }
    Ok(out)
}

/// The code with variables of these kinds.
fn with_kinds(alloc: Global, code: &Code, kinds: Vec<Param>) -> Result<Code, Memory>
    ensures { IfOk result (λ c. c ≡ record code.now { vars = kinds.items }) }
{
    let instrs = lines(alloc, code.instrs.as_slice())?;
    let heads = heads(alloc, code.heads.as_slice())?;
    let terms = code.terms.copy(alloc)?;
    Ok(Code {
        instrs,
        vars: Seq::new(kinds),
        params: code.params,
        locals: code.locals,
        result: code.result,
        heads,
        terms,
    })
}

/// The code in which each parameter that no instruction names, and whose reference is not taken over, is an `int`. None
/// where it is the code itself.
pub fn idle(alloc: Global, code: &Code) -> Result<Option<Code>, Memory>
    ensures { IfOk result (λ o. MatchOption o (idle code.now ≡ code.now) (λ c. c ≡ idle code.now)) }
{
    let lines = code.instrs.as_slice();
    let params = code.params as usize;
    let taken = code.terms.convention.taken.as_slice();
    if !has_idle(lines, taken, params, code.vars.as_slice()) {
        return Ok(None);
    }
    let kinds = idle_kinds(alloc, lines, taken, params, code.vars.as_slice())?;
    Ok(Some(with_kinds(alloc, code, kinds)?))
}
