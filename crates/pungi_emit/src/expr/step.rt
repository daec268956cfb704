// What follows an operand of `++`, `--` or `-`.
ghost use Rattle.std.specs.Prelude.{◌≡◌, ◌+◌, ◌<◌, ◌^◌, ◌++◌, OnOk};
ghost use Rattle.pungi_resolved.specs.ValueView.{place_view};
ghost use Rattle.pungi_layout.specs.code.Sound.{IsPlaceSound, place_nodes};
ghost use Rattle.pungi_layout.specs.code.ExprCode.{sign_code, step_code};

use crate::code::instructions::{Around, put};
use crate::expr::parts::step_op;
use crate::expr::place::{emit_fit, emit_store};
use crate::expr::temporary::{above, atom, base_var, counted_var, stored_var, temp};
use pungi_base::{Kind, Memory, Pos, Seq};
use pungi_code::{Atom, Instr, Line, Var};
use pungi_meaning::{Op, wide};
use pungi_resolved::Place;
use pungi_types::ValueKind;

/// `++` and `--`, once the old content stands in its variable.
pub fn emit_step(
    code: &mut Seq<Line>,
    around: Around,
    depth: u16,
    target: u32,
    pos: Pos,
    mark: Kind,
    kind: ValueKind,
    place: &Place,
) -> Result<(), Memory>
    requires sound { IsPlaceSound around.locals (place_view place.now) }
    requires deep { depth + place_nodes (place_view place.now) < 2 ^ 16 }
    ensures { OnOk result (code.new ≡ code.old ++ step_code around.locals depth target pos mark kind
        (place_view place.now)) }
{
    let locals = around.locals;
    let counted = wide(kind);
    let base = base_var(locals, place, depth);
    let value = stored_var(locals, place, depth, kind);
    let outcome = counted_var(locals, place, depth, kind, counted);
    let old = temp(locals, above(place, depth), kind);
    let instr = Instr::Arith(
        Var(outcome),
        counted,
        step_op(mark),
        atom(old),
        Atom::Int(1),
    );
    put(code, pos, instr)?;
    emit_fit(code, pos, kind, counted, value, outcome)?;
    emit_store(code, around.locals, kind, place, target, base, value)
}

/// The sign of a value.
pub fn emit_sign(
    code: &mut Seq<Line>,
    minus: bool,
    pos: Pos,
    kind: ValueKind,
    target: u32,
    value: u32,
) -> Result<(), Memory>
    ensures { OnOk result (code.new ≡ code.old ++ sign_code minus pos kind target value) }
{
    if minus {
        let instr = Instr::Arith(Var(target), kind, Op::Sub, Atom::Int(0), atom(value));
        put(code, pos, instr)
    } else {
        Ok(())
    }
}
