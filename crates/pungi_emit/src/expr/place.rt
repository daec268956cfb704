// The instructions that read and write places.
ghost use Rattle.std.specs.Prelude.{◌≡◌, ◌++◌, OnOk};
ghost use Rattle.pungi_resolved.specs.ValueView.{place_view};
ghost use Rattle.pungi_layout.specs.code.Sound.{IsPlaceSound};
ghost use Rattle.pungi_layout.specs.code.ExprCode.{fit_code, old_code, store_code};

use crate::code::instructions::put;
use crate::expr::parts::slot_kind;
use crate::expr::temporary::atom;
use pungi_base::{Memory, Pos, Seq};
use pungi_code::{Instr, Line, Place as Slot, Var};
use pungi_resolved::Place;
use pungi_types::ValueKind;
use pungi_types::operator::is_same_kind;

/// A conversion, where the kinds differ.
pub fn emit_fit(
    code: &mut Seq<Line>,
    pos: Pos,
    to: ValueKind,
    from: ValueKind,
    target: u32,
    value: u32,
) -> Result<(), Memory>
    ensures { OnOk result (code.new ≡ code.old ++ fit_code pos to from target value) }
{
    if is_same_kind(Some(to), Some(from)) {
        Ok(())
    } else {
        put(code, pos, Instr::Fit(Var(target), to, atom(value)))
    }
}

/// What a place holds. The base of a field stands in `base`.
pub fn emit_old(
    code: &mut Seq<Line>,
    locals: u16,
    kind: ValueKind,
    place: &Place,
    target: u32,
    base: u32,
) -> Result<(), Memory>
    requires { IsPlaceSound locals (place_view place.now) }
    ensures { OnOk result (code.new ≡ code.old ++ old_code kind (place_view place.now) target base) }
{
    match place {
        Place::Local(pos, local) => {
            let local = *local as u32;
            put(code, *pos, Instr::Set(Var(target), atom(local)))
        }
        Place::Global(pos, name) => {
            let slot = Slot::Global(*name, slot_kind(kind));
            put(code, *pos, Instr::Load(Var(target), slot))
        }
        Place::Field(pos, _, tag, field) => {
            let slot = Slot::Field(atom(base), *tag, *field, slot_kind(kind));
            put(code, *pos, Instr::Load(Var(target), slot))
        }
    }
}

/// A value is stored, and goes on in `target`.
pub fn emit_store(
    code: &mut Seq<Line>,
    locals: u16,
    kind: ValueKind,
    place: &Place,
    target: u32,
    base: u32,
    value: u32,
) -> Result<(), Memory>
    requires { IsPlaceSound locals (place_view place.now) }
    ensures { OnOk result (code.new ≡ code.old ++ store_code kind (place_view place.now) target base value) }
{
    match place {
        Place::Local(pos, local) => {
            let local = *local as u32;
            put(code, *pos, Instr::Set(Var(local), atom(value)))?;
            put(code, *pos, Instr::Set(Var(target), atom(value)))
        }
        Place::Global(pos, name) => {
            let slot = Slot::Global(*name, slot_kind(kind));
            put(code, *pos, Instr::Store(slot, atom(value)))?;
            put(code, *pos, Instr::Set(Var(target), atom(value)))
        }
        Place::Field(pos, _, tag, field) => {
            let slot = Slot::Field(atom(base), *tag, *field, slot_kind(kind));
            put(code, *pos, Instr::Store(slot, atom(value)))?;
            put(code, *pos, Instr::Set(Var(target), atom(value)))
        }
    }
}
