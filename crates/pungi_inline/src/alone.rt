ghost use Rattle.std.specs.Prelude.{◌≡◌, IfOk};
ghost use Rattle.pungi_inline.specs.Laws.{one_code};

use pungi_base::{Memory, Name, Seq};
use pungi_code::{Code, Codes};
use std::alloc::Global;

/// A file with this code alone, of a function of this name.
pub fn one_code(alloc: Global, statics: u32, name: Name, code: Code) -> Result<Codes, Memory>
    ensures { IfOk result (λ codes. codes ≡ one_code statics name code) }
{
    let mut names = Seq::new(Vec::new(alloc));
    names.push(name)?;
    let mut codes = Seq::new(Vec::new(alloc));
    codes.push(Some(code))?;
    Ok(Codes {
        codes,
        statics,
        names,
    })
}
