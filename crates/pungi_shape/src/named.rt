ghost use Rattle.std.specs.Prelude.{◌≡◌, ◌∷◌, IfOk, OnOk};
ghost use Rattle.std.specs.List.{flat_map};
ghost use Rattle.pungi_code.specs.WellFormed.{IsAlone, atoms_in};
ghost use Rattle.pungi_shape.specs.Named.{put_number, put_numbers, static_in, statics_in, statics_of};

use pungi_base::{Memory, Seq};
use pungi_code::{Atom, Codes, Instr, Line, Place};
use std::alloc::Global;

/// A number in its place, unless it is there.
fn put_number(ns: &mut Vec<u32>, n: u32) -> Result<(), Memory>
    ensures { OnOk result (ns.new.items ≡ put_number n ns.old.items) }
{
    let mut i = 0;
    while i < ns.len() && ns[i] < n {
        i += 1;
    }
    if i < ns.len() && ns[i] == n {
        return Ok(());
    }
    ns.insert(i, n)?;
    Ok(())
}

fn put_atom(ns: &mut Vec<u32>, a: Atom) -> Result<(), Memory>
    ensures { OnOk result (ns.new.items ≡ put_numbers (static_in a) ns.old.items) }
{
    match a {
        Atom::Static(n) => put_number(ns, n),
        _ => Ok(()),
    }
}

/// The static objects among these atoms. From the last to the first.
#[tactic(auto, using(crate::proofs::NamedLemmas::put_numbers_append))]
fn put_atoms(ns: &mut Vec<u32>, atoms: &[Atom]) -> Result<(), Memory>
    ensures { OnOk result (ns.new.items ≡ put_numbers (flat_map static_in atoms.now) ns.old.items) }
{
    let mut i = atoms.len();
    while i > 0 {
        i -= 1;
        put_atom(ns, atoms[i])?;
    }
    Ok(())
}

fn put_load(ns: &mut Vec<u32>, place: Place) -> Result<(), Memory>
    ensures { OnOk result (ns.new.items ≡ put_numbers (flat_map static_in (atoms_in place)) ns.old.items) }
{
    match place {
        Place::Global(_, _) => Ok(()),
        Place::Field(base, _, _, _) => put_atoms(ns, &[base]),
    }
}

fn put_store(ns: &mut Vec<u32>, place: Place, a: Atom) -> Result<(), Memory>
    ensures { OnOk result (ns.new.items ≡ put_numbers (flat_map static_in (a ∷ atoms_in place)) ns.old.items) }
{
    match place {
        Place::Global(_, _) => put_atoms(ns, &[a]),
        Place::Field(base, _, _, _) => put_atoms(ns, &[a, base]),
    }
}

fn put_line(ns: &mut Vec<u32>, line: &Line) -> Result<(), Memory>
    ensures { OnOk result (ns.new.items ≡ put_numbers (statics_in line.now) ns.old.items) }
{
    match &line.instr {
        Instr::Set(_, a) => put_atoms(ns, &[*a]),
        Instr::Arith(_, _, _, a, b) => put_atoms(ns, &[*a, *b]),
        Instr::Fit(_, _, a) => put_atoms(ns, &[*a]),
        Instr::Compare(_, _, a, b) => put_atoms(ns, &[*a, *b]),
        Instr::Load(_, place) => put_load(ns, *place),
        Instr::Store(place, a) => put_store(ns, *place, *a),
        Instr::Api(_, _, atoms) => put_atoms(ns, atoms.as_slice()),
        Instr::Call(_, _, atoms) => put_atoms(ns, atoms.as_slice()),
        Instr::Branch(a, _, _) => put_atoms(ns, &[*a]),
        Instr::Return(Some(a)) => put_atoms(ns, &[*a]),
        Instr::Return(None) => Ok(()),
        Instr::Unset(_) => Ok(()),
        Instr::Jump(_) => Ok(()),
        Instr::Fall => Ok(()),
    }
}

/// The static objects that some instructions name. From the last to the first.
#[tactic(auto, using(crate::proofs::NamedLemmas::put_numbers_append))]
pub(crate) fn put_lines(ns: &mut Vec<u32>, lines: &[Line]) -> Result<(), Memory>
    ensures { OnOk result (ns.new.items ≡ put_numbers (flat_map statics_in lines.now) ns.old.items) }
{
    let mut i = lines.len();
    while i > 0 {
        i -= 1;
        put_line(ns, &lines[i])?;
    }
    Ok(())
}

/// The static objects that a function names, in the order of their numbers. It calls no function of the file.
pub(crate) fn statics_of(alloc: Global, codes: &Codes, f: u32) -> Result<Seq<u32>, Memory>
    requires { IsAlone codes.now f }
    ensures { IfOk result (λ statics. statics ≡ statics_of codes.now f) }
{
    let mut ns = Vec::new(alloc);
    if (f as usize) < codes.codes.len() {
        if let Some(code) = &codes.codes.as_slice()[f as usize] {
            put_lines(&mut ns, code.instrs.as_slice())?;
        }
    }
    Ok(Seq::new(ns))
}
