ghost use Rattle.std.specs.Prelude.{◌≡◌, None};
ghost use Rattle.pungi_code.specs.Alone.{CallsNone};
ghost use Rattle.pungi_inline.specs.FirstCall.{called_by, first_call};

use pungi_base::Pos;
use pungi_code::{Code, Instr, Line};

/// The call of a function of the file that an instruction is.
fn called_by(line: &Line) -> Option<(Pos, usize)>
    ensures { result ≡ called_by line.now.pos line.now.instr }
{
    match &line.instr {
        Instr::Call(_, f, _) => Some((line.pos, *f)),
        _ => None,
    }
}

/// The first call of a function of the file that is left in a code: its place in the text, and the number of the
/// function.
pub fn first_call(code: &Code) -> Option<(Pos, usize)>
    ensures first { result ≡ first_call code.now.instrs }
    ensures none { result ≡ None → CallsNone code.now.instrs }
{
    for line in code.instrs.as_slice() {
        if let Some(call) = called_by(line) {
            return Some(call);
        }
    }
    None
}
