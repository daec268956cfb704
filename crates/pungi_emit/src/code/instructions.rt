// Emitting instructions.
ghost use Rattle.std.specs.Prelude.{◌≡◌, ◌≤◌, ◌∷◌, ◌++◌, [], length, slice_set, OnOk};
ghost use Rattle.pungi_code.specs.Limits.{most_instructions};
ghost use Rattle.pungi_layout.specs.code.ExprCode.{line as line_at};

use pungi_base::{Memory, Pos, Seq};
use pungi_code::{Instr, Line};
use std::alloc::Global;

/// What an expression is lowered with: the allocator, and how many locals its function has.
#[derive(Clone, Copy)]
pub struct Around {
    pub alloc: Global,
    pub locals: u16,
}

/// One more instruction.
pub fn put(code: &mut Seq<Line>, pos: Pos, instr: Instr) -> Result<(), Memory>
    ensures { OnOk result (code.new ≡ code.old ++ line_at pos instr ∷ []) }
{
    code.push(Line { pos, instr })
}

/// The place of the next instruction.
pub fn next_place(code: &Seq<Line>) -> u32
    requires { length code.now ≤ most_instructions }
    ensures { result ≡ length code.now }
{
    code.len() as u32
}

/// Another instruction at this place.
pub fn replace(code: &mut Seq<Line>, place: u32, pos: Pos, instr: Instr)
    ensures { code.new ≡ slice_set code.old place (line_at pos instr) }
{
    let place = place as usize;
    if place < code.len() {
        code.set(place, Line { pos, instr });
    }
}
