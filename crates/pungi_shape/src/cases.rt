ghost use Rattle.std.specs.Prelude.{◌≡◌, ◌++◌, ◌∷◌, [], None, OnOk};
ghost use Rattle.std.specs.List.{list_all};
ghost use Rattle.pungi_shape.specs.Cases.{passes_on, leads, frees, leads_to, holds_something, are_set};
ghost use Rattle.pungi_shape.specs.Forms.{zero_form};
ghost use Rattle.pungi_shape.specs.Parts.{vars_in, vars_in_all, vars_in_place, reads, all_reads, reads_later};
ghost use Rattle.pungi_shape.specs.Parts.{kept_argument};
ghost use Rattle.pungi_shape.specs.Scenes.{with_var};
ghost use Rattle.pungi_shape.specs.Steps.{out as case_out};

use crate::parts::maps;
use crate::{Case, Form, Holding, Onward, Scene};
use pungi_api::CallAnswer;
use pungi_base::{Memory, Seq};
use pungi_code::{Atom, Instr, Place};
use std::alloc::Global;

// ---- one case

/// The case without equations that leads on within the instruction.
fn passes_on(alloc: Global, k: u32, scene: Scene) -> Case
    ensures { result ≡ passes_on k scene }
{
    Case {
        guard: Seq::new(Vec::new(alloc)),
        scene,
        freed: None,
        onward: Onward::Within(k),
    }
}

/// The case that leads to an instruction, under these equations.
fn leads_under(guard: Seq<Form>, pc: u32, scene: Scene) -> Case
    ensures { result ≡ record { guard = guard; scene = scene; freed = None; onward = leads_to pc } }
{
    Case {
        guard,
        scene,
        freed: None,
        onward: Onward::LeadsTo(pc),
    }
}

/// The case that leads to an instruction, and there with any number in a variable.
fn frees(alloc: Global, x: u32, pc: u32, scene: Scene) -> Case
    ensures { result ≡ frees x pc scene }
{
    Case {
        guard: Seq::new(Vec::new(alloc)),
        scene,
        freed: Some(x),
        onward: Onward::LeadsTo(pc),
    }
}

/// The case that leaves the function.
pub(crate) fn leaves(alloc: Global, scene: Scene) -> Case
    ensures { result ≡ case_out scene }
{
    Case {
        guard: Seq::new(Vec::new(alloc)),
        scene,
        freed: None,
        onward: Onward::Leaves,
    }
}

// ---- adding a case

/// Adds the case that leads on within the instruction, with this outcome.
pub(crate) fn add_passes_on(
    alloc: Global,
    k: u32,
    scene: Scene,
    out: &mut Seq<Case>,
) -> Result<(), Memory>
    ensures { OnOk result (out.new ≡ out.old ++ passes_on k scene ∷ []) }
{
    out.push(passes_on(alloc, k, scene))
}

/// Adds the case that leads to an instruction.
pub(crate) fn add_leads(
    alloc: Global,
    pc: u32,
    scene: Scene,
    out: &mut Seq<Case>,
) -> Result<(), Memory>
    ensures { OnOk result (out.new ≡ out.old ++ leads pc scene ∷ []) }
{
    out.push(leads_under(Seq::new(Vec::new(alloc)), pc, scene))
}

/// Adds the case that leads to an instruction, under these equations.
pub(crate) fn add_leads_under(
    guard: Seq<Form>,
    pc: u32,
    scene: Scene,
    out: &mut Seq<Case>,
) -> Result<(), Memory>
    ensures { OnOk result (out.new ≡ out.old
        ++ (record { guard = guard; scene = scene; freed = None; onward = leads_to pc }) ∷ []) }
{
    out.push(leads_under(guard, pc, scene))
}

/// Adds the case that nothing changes, which leads to an instruction.
pub(crate) fn add_same(
    alloc: Global,
    pc: u32,
    scene: Scene,
    out: &mut Seq<Case>,
) -> Result<(), Memory>
    ensures { OnOk result (out.new ≡ out.old ++ leads pc scene ∷ []) }
{
    add_leads(alloc, pc, scene, out)
}

/// Adds the case that a variable holds something else, which leads to an instruction.
pub(crate) fn add_with_var(
    alloc: Global,
    x: u32,
    h: Holding,
    f: Form,
    pc: u32,
    scene: Scene,
    out: &mut Seq<Case>,
) -> Result<(), Memory>
    ensures { OnOk result (out.new ≡ out.old ++ leads pc (with_var x h f scene) ∷ []) }
{
    let mut after = scene;
    after.put_var(x, h, f);
    add_leads(alloc, pc, after, out)
}

/// Adds the case that a variable holds something else that is no number, which leads to an instruction.
pub(crate) fn add_with_zero(
    alloc: Global,
    x: u32,
    h: Holding,
    pc: u32,
    scene: Scene,
    out: &mut Seq<Case>,
) -> Result<(), Memory>
    ensures { OnOk result (out.new ≡ out.old ++ leads pc (with_var x h (zero_form scene.width) scene) ∷ []) }
{
    let zero = Form::zero(alloc, scene.width);
    add_with_var(alloc, x, h, zero, pc, scene, out)
}

/// Adds the case that any number may be in a variable, which leads to an instruction.
pub(crate) fn add_frees(
    alloc: Global,
    x: u32,
    h: Holding,
    pc: u32,
    scene: Scene,
    out: &mut Seq<Case>,
) -> Result<(), Memory>
    ensures { OnOk result (out.new ≡ out.old ++ frees x pc (with_var x h (zero_form scene.width) scene) ∷ []) }
{
    let zero = Form::zero(alloc, scene.width);
    let mut after = scene;
    after.put_var(x, h, zero);
    out.push(frees(alloc, x, pc, after))
}

// ---- what is set

fn holds_something(h: Holding) -> bool
    ensures { result ≡ holds_something h }
{
    match h {
        Holding::Dead | Holding::Unset => false,
        Holding::Null | Holding::Text | Holding::Known(_) | Holding::Number | Holding::Token(_) =>
            true,
    }
}

/// Whether an atom is no unset variable.
fn is_atom_set(scene: &Scene, a: Atom) -> bool
    ensures { result ≡ are_set scene.now (vars_in a) }
{
    match a {
        Atom::Var(x) => holds_something(scene.holding_at(x.0)),
        Atom::Int(_) | Atom::Null | Atom::Text | Atom::Static(_) => true,
    }
}

fn are_both_set(scene: &Scene, a: Atom, b: Atom) -> bool
    ensures { result ≡ are_set scene.now (vars_in a ++ vars_in b) }
{
    is_atom_set(scene, a) && is_atom_set(scene, b)
}

fn is_each_set(scene: &Scene, atoms: &[Atom]) -> bool
    ensures { result ≡ list_all (λ a. are_set scene.now (vars_in a)) atoms.now }
{
    atoms.iter().all(|a| is_atom_set(scene, *a))
}

fn are_all_set(scene: &Scene, atoms: &[Atom]) -> bool
    ensures { result ≡ are_set scene.now (vars_in_all atoms.now) }
{
    is_each_set(scene, atoms)
}

fn is_place_set(scene: &Scene, place: Place) -> bool
    ensures { result ≡ are_set scene.now (vars_in_place place) }
{
    match place {
        Place::Global(_, _) => true,
        Place::Field(base, _, _, _) => is_atom_set(scene, base),
    }
}

fn is_store_set(scene: &Scene, place: Place, a: Atom) -> bool
    ensures { result ≡ are_set scene.now (vars_in_place place ++ vars_in a) }
{
    is_place_set(scene, place) && is_atom_set(scene, a)
}

fn is_kept_set(scene: &Scene, answer: CallAnswer, atoms: &[Atom]) -> bool
    ensures { result ≡ are_set scene.now (kept_argument answer atoms.now) }
{
    match (answer, atoms) {
        (CallAnswer::Argument, [a, ..]) => is_atom_set(scene, *a),
        _ => true,
    }
}

fn are_reads_set(scene: &Scene, instr: &Instr) -> bool
    ensures { result ≡ are_set scene.now (all_reads instr.now) }
{
    match instr {
        Instr::Set(_, a) => is_atom_set(scene, *a),
        Instr::Arith(_, _, _, a, b) => are_both_set(scene, *a, *b),
        Instr::Fit(_, _, a) => is_atom_set(scene, *a),
        Instr::Compare(_, _, a, b) => are_both_set(scene, *a, *b),
        Instr::Load(_, place) => is_place_set(scene, *place),
        Instr::Store(place, a) => is_store_set(scene, *place, *a),
        Instr::Api(_, _, atoms) => are_all_set(scene, atoms.as_slice()),
        Instr::Call(_, _, atoms) => are_all_set(scene, atoms.as_slice()),
        Instr::Branch(a, _, _) => is_atom_set(scene, *a),
        Instr::Return(Some(a)) => is_atom_set(scene, *a),
        Instr::Return(None) | Instr::Unset(_) | Instr::Jump(_) | Instr::Fall => true,
    }
}

fn are_later_reads_set(scene: &Scene, instr: &Instr) -> bool
    ensures { result ≡ are_set scene.now (reads_later instr.now) }
{
    match instr {
        Instr::Load(_, place) => is_place_set(scene, *place),
        Instr::Store(place, a) => is_store_set(scene, *place, *a),
        Instr::Api(_, g, atoms) => is_kept_set(scene, g.get().answer, atoms.as_slice()),
        Instr::Call(_, _, atoms) => are_all_set(scene, atoms.as_slice()),
        _ => true,
    }
}

/// Whether all is set that is read from a part of an instruction on.
pub(crate) fn are_set(scene: &Scene, instr: &Instr, part: u32) -> bool
    ensures { result ≡ are_set scene.now (reads instr.now part) }
{
    if part == 0 {
        are_reads_set(scene, instr)
    } else if part < maps(instr) {
        are_later_reads_set(scene, instr)
    } else {
        true
    }
}
