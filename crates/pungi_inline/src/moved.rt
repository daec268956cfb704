// What a copy of an instruction names.
ghost use Rattle.std.specs.Prelude.{◌≡◌, map, IfOk, option_map};
ghost use Rattle.pungi_code.specs.declared.instr.Instr.TheVariants.{Api, Call, Return};
ghost use Rattle.pungi_inline.specs.Moved.{var_in, moved_var, moved_result, moved_atom, moved_atoms, moved_place};
ghost use Rattle.pungi_inline.specs.Moved.{moved_instr, moved_line, moved_head};
ghost use Rattle.pungi_inline.specs.Places.{place_in};

use crate::places::Places;
use pungi_api::BoxedSignature;
use pungi_base::{Memory, Seq};
use pungi_code::{Atom, Head, Instr, Line, Place, Var};
use std::alloc::Global;

// ---- variables

/// The variable of this number in a window.
pub fn var_in(window: u32, n: usize) -> Var
    ensures { result ≡ var_in window n }
{
    let number = (window as usize).saturating_add(n);
    Var(number.min(u32::MAX as usize) as u32)
}

fn moved_var(window: u32, x: Var) -> Var
    ensures { result ≡ moved_var window x }
{
    var_in(window, x.0 as usize)
}

fn moved_result(window: u32, x: Option<Var>) -> Option<Var>
    ensures { result ≡ moved_result window x }
{
    match x {
        Some(x) => Some(moved_var(window, x)),
        None => None,
    }
}

/// An atom in a window.
pub fn moved_atom(window: u32, a: Atom) -> Atom
    ensures { result ≡ moved_atom window a }
{
    match a {
        Atom::Var(x) => Atom::Var(moved_var(window, x)),
        _ => a,
    }
}

fn moved_atoms(alloc: Global, window: u32, atoms: &[Atom]) -> Result<Seq<Atom>, Memory>
    ensures { IfOk result (λ copy. copy ≡ moved_atoms window atoms.now) }
{
    let mut copy = Vec::new(alloc);
    for a in atoms {
        copy.push(moved_atom(window, *a))?;
    }
    Ok(Seq::new(copy))
}

fn moved_place(window: u32, place: Place) -> Place
    ensures { result ≡ moved_place window place }
{
    match place {
        Place::Global(_, _) => place,
        Place::Field(base, tag, field, kind) => {
            Place::Field(moved_atom(window, base), tag, field, kind)
        }
    }
}

// ---- instructions

fn moved_api(
    alloc: Global,
    window: u32,
    x: Option<Var>,
    signature: &BoxedSignature,
    args: &[Atom],
) -> Result<Instr, Memory>
    ensures { IfOk result (λ copy. copy ≡ Api (moved_result window x) signature.now (moved_atoms window args.now)) }
{
    let signature = signature.copy(alloc)?;
    let args = moved_atoms(alloc, window, args)?;
    Ok(Instr::Api(moved_result(window, x), signature, args))
}

fn moved_call(
    alloc: Global,
    window: u32,
    x: Option<Var>,
    f: usize,
    args: &[Atom],
) -> Result<Instr, Memory>
    ensures { IfOk result (λ copy. copy ≡ Call (moved_result window x) f (moved_atoms window args.now)) }
{
    let args = moved_atoms(alloc, window, args)?;
    Ok(Instr::Call(moved_result(window, x), f, args))
}

fn moved_return(window: u32, value: Option<Atom>) -> Instr
    ensures { result ≡ Return (option_map (moved_atom window) value) }
{
    match value {
        Some(a) => Instr::Return(Some(moved_atom(window, a))),
        None => Instr::Return(None),
    }
}

/// An instruction in a window, with labels at these places.
pub fn moved_instr(
    alloc: Global,
    window: u32,
    places: &Places,
    instr: &Instr,
) -> Result<Instr, Memory>
    ensures { IfOk result (λ copy. copy ≡ moved_instr window (place_in places.now.starts.items) instr.now) }
{
    match instr {
        Instr::Api(x, signature, args) => moved_api(alloc, window, *x, signature, args.as_slice()),
        Instr::Call(x, f, args) => moved_call(alloc, window, *x, *f, args.as_slice()),
        Instr::Set(x, a) => Ok(Instr::Set(moved_var(window, *x), moved_atom(window, *a))),
        Instr::Arith(x, kind, op, a, b) => {
            let a = moved_atom(window, *a);
            let b = moved_atom(window, *b);
            Ok(Instr::Arith(moved_var(window, *x), *kind, *op, a, b))
        }
        Instr::Fit(x, kind, a) => {
            Ok(Instr::Fit(moved_var(window, *x), *kind, moved_atom(window, *a)))
        }
        Instr::Compare(x, cmp, a, b) => {
            let a = moved_atom(window, *a);
            let b = moved_atom(window, *b);
            Ok(Instr::Compare(moved_var(window, *x), *cmp, a, b))
        }
        Instr::Load(x, place) => {
            Ok(Instr::Load(moved_var(window, *x), moved_place(window, *place)))
        }
        Instr::Store(place, a) => {
            Ok(Instr::Store(moved_place(window, *place), moved_atom(window, *a)))
        }
        Instr::Unset(x) => Ok(Instr::Unset(moved_var(window, *x))),
        Instr::Jump(to) => Ok(Instr::Jump(places.label(*to))),
        Instr::Branch(a, this, other) => {
            let a = moved_atom(window, *a);
            Ok(Instr::Branch(a, places.label(*this), places.label(*other)))
        }
        Instr::Return(value) => Ok(moved_return(window, *value)),
        Instr::Fall => Ok(Instr::Fall),
    }
}

/// A line in a window, with labels at these places.
pub fn moved_line(alloc: Global, window: u32, places: &Places, line: &Line) -> Result<Line, Memory>
    ensures { IfOk result (λ copy. copy ≡ moved_line window (place_in places.now.starts.items) line.now) }
{
    let instr = moved_instr(alloc, window, places, &line.instr)?;
    Ok(Line {
        pos: line.pos,
        instr,
    })
}

/// A loop's head whose label is at one of these places.
pub fn moved_head(places: &Places, head: Head) -> Head
    ensures { result ≡ moved_head (place_in places.now.starts.items) head }
{
    Head {
        label: places.label(head.label),
        pos: head.pos,
    }
}
