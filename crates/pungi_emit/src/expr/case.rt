// The comparison of a value with one number.
ghost use Rattle.std.specs.Prelude.{◌≡◌, ◌+◌, ◌≤◌, ◌++◌, length, OnOk};
ghost use Rattle.pungi_code.specs.Limits.{most_instructions};
ghost use Rattle.pungi_emit.specs.stmt.Cases.{case_lines};

use crate::code::instructions::{next_place, put};
use crate::expr::temporary::atom;
use pungi_base::{Memory, Pos, Seq};
use pungi_code::{Atom, Instr, Label, Line, Var};
use pungi_meaning::Cmp;

/// The comparison with one number, which leads to a place where it is equal.
pub fn emit_case(
    code: &mut Seq<Line>,
    pos: Pos,
    value: u32,
    outcome: u32,
    number: Atom,
    place: u32,
) -> Result<(), Memory>
    requires { length code.old + 2 ≤ most_instructions }
    ensures { OnOk result (code.new ≡ code.old ++ case_lines pos value outcome (length code.old) number place) }
{
    let here = next_place(code);
    let next = here + 2;
    let compare = Instr::Compare(Var(outcome), Cmp::Equal, atom(value), number);
    put(code, pos, compare)?;
    put(
        code,
        pos,
        Instr::Branch(atom(outcome), Label(place), Label(next)),
    )?;
    Ok(())
}
