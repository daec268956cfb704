// One instruction.
ghost use Rattle.std.specs.Prelude.{◌≡◌, ◌<◌, ◌+◌, ◌^◌, [], IfOk};
ghost use Rattle.pungi_code.specs.declared.instr.Instr.TheVariants.{Arith as ArithOf, Fit as FitOf};
ghost use Rattle.pungi_code.specs.declared.instr.Instr.TheVariants.{Compare as CompareOf, Branch as BranchOf};
ghost use Rattle.pungi_code.specs.declared.instr.Instr.TheVariants.{Return as ReturnOf};
ghost use Rattle.pungi_code.specs.declared.registers.After.TheVariants.{Goes as GoesTo};
ghost use Rattle.pungi_code.specs.Machine.{regs_of, Does};
ghost use Rattle.pungi_code.specs.Perform.{perform as performed, load, store, slot_of, with_slot};
ghost use Rattle.pungi_code.specs.Registers.{put, content_of, with_value};
ghost use Rattle.pungi_world.specs.declared.content.Content.TheVariants.{Holds as HoldsContent};

use crate::api::call_api;
use crate::registers::{After, Registers, set};
use crate::slots::{load, slot_of, store};
use crate::values::content_of;
use crate::{Atom, Instr, Label, Line, Place, Var};
use pungi_base::{Choice, Memory, Pos, Value};
use pungi_meaning::{Cmp, Op, arithmetic, fits, is_true, number_of, truth};
use pungi_types::ValueKind;
use pungi_world::Content;
use std::alloc::Global;

/// A variable holds something else, and the next instruction comes.
fn put(m: &mut Registers, x: Var, content: Content, pc: usize) -> After
    requires { pc < 2 ^ 63 }
    ensures place { result ≡ GoesTo (pc + 1) }
    ensures regs { regs_of m.new ≡ put x content (regs_of m.old) }
{
    set(m, x, content);
    After::Goes(pc + 1)
}

fn arith(
    m: &mut Registers,
    x: Var,
    kind: ValueKind,
    op: Op,
    a: Atom,
    b: Atom,
    pos: Pos,
    pc: usize,
) -> After
    requires { pc < 2 ^ 63 }
    ensures { Does (λ next. performed [] (ArithOf x kind op a b) pos next pc (regs_of m.old)) result m.new }
{
    let Content::Holds(left) = content_of(a, &m.vars) else {
        return After::Stops(pos);
    };
    let Content::Holds(right) = content_of(b, &m.vars) else {
        return After::Stops(pos);
    };
    match arithmetic(op, kind, number_of(left), number_of(right)) {
        Some(n) => put(m, x, Content::Holds(Value::Int(n)), pc),
        None => After::Stops(pos),
    }
}

fn fit(m: &mut Registers, x: Var, kind: ValueKind, a: Atom, pos: Pos, pc: usize) -> After
    requires { pc < 2 ^ 63 }
    ensures { Does (λ next. performed [] (FitOf x kind a) pos next pc (regs_of m.old)) result m.new }
{
    let Content::Holds(value) = content_of(a, &m.vars) else {
        return After::Stops(pos);
    };
    let n = number_of(value);
    if fits(kind, n) {
        put(m, x, Content::Holds(Value::Int(n)), pc)
    } else {
        After::Stops(pos)
    }
}

fn compare(m: &mut Registers, x: Var, cmp: Cmp, a: Atom, b: Atom, pos: Pos, pc: usize) -> After
    requires { pc < 2 ^ 63 }
    ensures { Does (λ next. performed [] (CompareOf x cmp a b) pos next pc (regs_of m.old)) result m.new }
{
    let Content::Holds(left) = content_of(a, &m.vars) else {
        return After::Stops(pos);
    };
    let Content::Holds(right) = content_of(b, &m.vars) else {
        return After::Stops(pos);
    };
    put(m, x, Content::Holds(truth(cmp.holds(left, right))), pc)
}

/// To one of two labels.
fn branch(m: &Registers, a: Atom, this: Label, other: Label, pos: Pos) -> After
    ensures { Does (λ next. performed [] (BranchOf a this other) pos next 0 (regs_of m.now)) result m.now }
{
    match content_of(a, &m.vars) {
        Content::Holds(value) => {
            if is_true(value) {
                After::Goes(this.0 as usize)
            } else {
                After::Goes(other.0 as usize)
            }
        }
        Content::Unset => After::Stops(pos),
    }
}

fn perform_return(m: &Registers, a: Option<Atom>, pos: Pos) -> After
    ensures { Does (λ next. performed [] (ReturnOf a) pos next 0 (regs_of m.now)) result m.now }
{
    match a {
        None => After::Leaves(pos, None),
        Some(a) => match content_of(a, &m.vars) {
            Content::Holds(value) => After::Leaves(pos, Some(value)),
            Content::Unset => After::Stops(pos),
        },
    }
}

fn load_place(
    m: &mut Registers,
    alloc: Global,
    choices: &[Choice],
    x: Var,
    place: Place,
    pos: Pos,
    pc: usize,
) -> Result<After, Memory>
    requires { pc < 2 ^ 63 }
    ensures { IfOk result (λ after. Does (λ next. with_slot (slot_of place (regs_of m.old).vars) pos
        (load choices.now x pos next pc (regs_of m.old))) after m.new) }
{
    match slot_of(place, &m.vars) {
        Some((slot, kind)) => load(m, alloc, choices, x, pos, pc, slot, kind),
        None => Ok(After::Stops(pos)),
    }
}

fn store_place(
    m: &mut Registers,
    alloc: Global,
    choices: &[Choice],
    place: Place,
    a: Atom,
    pos: Pos,
    pc: usize,
) -> Result<After, Memory>
    requires { pc < 2 ^ 63 }
    ensures { IfOk result (λ after. Does (λ next. with_value (content_of a (regs_of m.old).vars) pos
        (λ v. with_slot (slot_of place (regs_of m.old).vars) pos (store choices.now pos next pc (regs_of m.old) v)))
        after m.new) }
{
    let Content::Holds(value) = content_of(a, &m.vars) else {
        return Ok(After::Stops(pos));
    };
    match slot_of(place, &m.vars) {
        Some((slot, kind)) => store(m, alloc, choices, pos, pc, value, slot, kind),
        None => Ok(After::Stops(pos)),
    }
}

/// One instruction, which stands at this place.
pub fn perform(
    m: &mut Registers,
    alloc: Global,
    choices: &[Choice],
    line: &Line,
    pc: usize,
) -> Result<After, Memory>
    requires { pc < 2 ^ 63 }
    ensures { IfOk result (λ after. Does (λ next. performed choices.now line.now.instr line.now.pos next pc
        (regs_of m.old)) after m.new) }
{
    let pos = line.pos;
    match &line.instr {
        Instr::Set(x, a) => match content_of(*a, &m.vars) {
            Content::Holds(value) => Ok(put(m, *x, Content::Holds(value), pc)),
            Content::Unset => Ok(After::Stops(pos)),
        },
        Instr::Arith(x, kind, op, a, b) => Ok(arith(m, *x, *kind, *op, *a, *b, pos, pc)),
        Instr::Fit(x, kind, a) => Ok(fit(m, *x, *kind, *a, pos, pc)),
        Instr::Compare(x, cmp, a, b) => Ok(compare(m, *x, *cmp, *a, *b, pos, pc)),
        Instr::Load(x, place) => load_place(m, alloc, choices, *x, *place, pos, pc),
        Instr::Store(place, a) => store_place(m, alloc, choices, *place, *a, pos, pc),
        Instr::Api(x, signature, args) => {
            call_api(
                m,
                alloc,
                choices,
                *x,
                signature.get(),
                args.as_slice(),
                pos,
                pc,
            )
        }
        Instr::Call(_, _, _) => Ok(After::Stops(pos)),
        Instr::Unset(x) => Ok(put(m, *x, Content::Unset, pc)),
        Instr::Jump(to) => Ok(After::Goes(to.0 as usize)),
        Instr::Branch(a, this, other) => Ok(branch(m, *a, *this, *other, pos)),
        Instr::Return(a) => Ok(perform_return(m, *a, pos)),
        Instr::Fall => Ok(After::Stops(pos)),
    }
}
