// A code with copies of the codes that it calls, up to four codes deep.
ghost use Rattle.std.specs.Prelude.{◌≡◌, IfOk, MatchOption};
ghost use Rattle.pungi_inline.specs.Inlined.{replaced, inlined};

use crate::expanded::expanded;
use crate::sites::{has_site, is_small};
use pungi_base::Memory;
use pungi_code::{Code, Codes};
use std::alloc::Global;

/// The code with one round of copies, unless there is nothing to copy or it would be past the limits.
fn replaced(alloc: Global, codes: &[Option<Code>], code: &Code) -> Result<Option<Code>, Memory>
    ensures { IfOk result (λ o. MatchOption o (replaced codes.now code.now ≡ code.now)
        (λ c. c ≡ replaced codes.now code.now)) }
{
    if has_site(codes, code.instrs.as_slice()) && is_small(codes, code) {
        Ok(Some(expanded(alloc, codes, code)?))
    } else {
        Ok(None)
    }
}

/// The code after one more round.
fn once_more(alloc: Global, codes: &[Option<Code>], code: Code) -> Result<Code, Memory>
    ensures { IfOk result (λ c. c ≡ replaced codes.now code) }
{
    match replaced(alloc, codes, &code)? {
        Some(more) => Ok(more),
        None => Ok(code),
    }
}

/// The code with copies of the codes that it calls in the place of its calls, up to four codes deep. None where it is
/// the code itself.
pub fn inline(alloc: Global, codes: &Codes, code: &Code) -> Result<Option<Code>, Memory>
    ensures { IfOk result (λ o. MatchOption o (inlined codes.now.codes code.now ≡ code.now)
        (λ c. c ≡ inlined codes.now.codes code.now)) }
{
    let codes = codes.codes.as_slice();
    let Some(first) = replaced(alloc, codes, code)? else {
        return Ok(None);
    };
    let second = once_more(alloc, codes, first)?;
    Ok(Some(once_more(alloc, codes, second)?))
}
