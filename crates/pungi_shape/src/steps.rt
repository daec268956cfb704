ghost use Rattle.std.specs.Prelude.{◌≡◌, ◌+◌, ◌==◌, ◌<◌, ◌^◌, ◌++◌, ◌∷◌, [], true, false, map, if◌then◌else◌, IfOk};
ghost use Rattle.std.specs.Prelude.{OnOk, Some};
ghost use Rattle.std.specs.List.{list_all};
ghost use Rattle.pungi_code.specs.declared.instr.Instr.TheVariants.{Return};
ghost use Rattle.pungi_shape.specs.declared.holding.Holding.TheVariants.{Unset};
ghost use Rattle.pungi_shape.specs.Bounds.{IsFresh, IsScene, has_opposite, have_opposites};
ghost use Rattle.pungi_shape.specs.Calls.{answer_cases, outcome_cases};
ghost use Rattle.pungi_shape.specs.Cases.{leads, passes_on};
ghost use Rattle.pungi_shape.specs.Scenes.{holding_of, form_of, with_var};
ghost use Rattle.pungi_shape.specs.Slots.{load_cases, store_cases};
ghost use Rattle.pungi_shape.specs.Steps.{forget, after_return, forget_slots, out as case_out, slot_cases};
ghost use Rattle.pungi_shape.specs.Steps.{holdings_of, part_cases, cases};

use crate::calls::{answer_cases, outcome_cases};
use crate::cases::{add_passes_on, add_same, add_with_var, add_with_zero, are_set, leaves};
use crate::comparisons::{branch_cases, comparison_cases};
use crate::numbers::{arithmetic_cases, conversion_cases};
use crate::slots::{find_cases, load_cases, store_cases, touch_cases};
use crate::{Case, Form, Holding, Scene};
use pungi_api::Signature;
use pungi_base::{Memory, Seq};
use pungi_code::{Atom, Instr, Place, Var};
use std::alloc::Global;

/// Adds the case of a copy.
fn set_case(
    alloc: Global,
    x: u32,
    a: Atom,
    pc: u32,
    scene: Scene,
    out: &mut Seq<Case>,
) -> Result<(), Memory>
    requires { has_opposite a ≡ true }
    ensures { OnOk result (out.new
        ≡ out.old ++ leads pc (with_var x (holding_of scene a) (form_of scene a) scene) ∷ []) }
{
    let form = scene.form_of(alloc, a)?;
    add_with_var(alloc, x, scene.holding_of(a), form, pc, scene, out)
}

// ---- calls

/// What atoms are.
fn holdings_of(alloc: Global, scene: &Scene, atoms: &[Atom]) -> Result<Vec<Holding>, Memory>
    ensures { IfOk result (λ v. v.items ≡ holdings_of scene.now atoms.now) }
{
    let mut holdings = Vec::with_capacity(alloc, atoms.len())?;
    for a in atoms {
        holdings.push(scene.holding_of(*a))?;
    }
    Ok(holdings)
}

/// Adds the cases of the first part of a call of the API.
fn call_cases(
    alloc: Global,
    g: &Signature,
    atoms: &[Atom],
    scene: Scene,
    out: &mut Seq<Case>,
) -> Result<(), Memory>
    requires scene { IsScene scene }
    requires fresh { IsFresh scene }
    ensures { OnOk result (out.new ≡ out.old ++ outcome_cases g.now (holdings_of scene atoms.now) scene) }
{
    let holdings = holdings_of(alloc, &scene, atoms)?;
    outcome_cases(alloc, g, &holdings, scene, out)
}

/// As many objects of which none is known to be made in this run.
fn none_made(alloc: Global, made: &[bool]) -> Result<Vec<bool>, Memory>
    ensures { IfOk result (λ v. v.items ≡ map (λ _. false) made.now) }
{
    let made = made.iter().map(|_| false).collect(alloc)?;
    Ok(made)
}

/// No slot is tracked any more, and no object is known to be made in this run.
fn forget_slots(alloc: Global, scene: &mut Scene) -> Result<(), Memory>
    ensures { OnOk result (scene.new ≡ forget_slots scene.old) }
{
    let made = none_made(alloc, scene.shape.made.as_slice())?;
    scene.shape.made = Seq::new(made);
    scene.shape.slots = Seq::new(Vec::new(alloc));
    Ok(())
}

/// Adds the case of the first part of a call of a function of the file.
fn add_forgotten(alloc: Global, scene: Scene, out: &mut Seq<Case>) -> Result<(), Memory>
    ensures { OnOk result (out.new ≡ out.old ++ passes_on 0 (forget_slots scene) ∷ []) }
{
    let mut after = scene;
    forget_slots(alloc, &mut after)?;
    add_passes_on(alloc, 0, after, out)
}

// ---- returns

/// As many variables that are unset.
fn none_set(alloc: Global, vars: &[Holding]) -> Result<Vec<Holding>, Memory>
    ensures { IfOk result (λ v. v.items ≡ map (λ _. Unset) vars.now) }
{
    let vars = vars.iter().map(|_| Holding::Unset).collect(alloc)?;
    Ok(vars)
}

/// A function returns: only the values at entry, the static objects and the returned value are kept.
fn forget(alloc: Global, scene: &mut Scene, h: Holding, form: Form) -> Result<(), Memory>
    ensures { OnOk result (scene.new ≡ forget h form scene.old) }
{
    let vars = none_set(alloc, scene.shape.vars.as_slice())?;
    scene.shape.vars = Seq::new(vars);
    scene.shape.returned = h;
    scene.shape.slots = Seq::new(Vec::new(alloc));
    scene.returned = form;
    Ok(())
}

/// Adds the case that a function returns this.
fn add_forget(
    alloc: Global,
    h: Holding,
    form: Form,
    scene: Scene,
    out: &mut Seq<Case>,
) -> Result<(), Memory>
    ensures { OnOk result (out.new ≡ out.old ++ passes_on 0 (forget h form scene) ∷ []) }
{
    let mut after = scene;
    forget(alloc, &mut after, h, form)?;
    add_passes_on(alloc, 0, after, out)
}

/// Adds the case of the first part of a return with a value.
fn return_value(alloc: Global, a: Atom, scene: Scene, out: &mut Seq<Case>) -> Result<(), Memory>
    requires { has_opposite a ≡ true }
    ensures { OnOk result (out.new ≡ out.old ++ passes_on 0 (after_return (Some a) scene) ∷ []) }
{
    let form = scene.form_of(alloc, a)?;
    add_forget(alloc, scene.holding_of(a), form, scene, out)
}

/// Adds the case of the first part of a return.
fn return_case(
    alloc: Global,
    a: Option<Atom>,
    scene: Scene,
    out: &mut Seq<Case>,
) -> Result<(), Memory>
    requires { have_opposites (Return a) ≡ true }
    ensures { OnOk result (out.new ≡ out.old ++ passes_on 0 (after_return a scene) ∷ []) }
{
    match a {
        Some(a) => return_value(alloc, a, scene, out),
        None => {
            let zero = Form::zero(alloc, scene.width);
            add_forget(alloc, Holding::Dead, zero, scene, out)
        }
    }
}

/// Adds the case that leaves the function.
fn add_leaves(alloc: Global, scene: Scene, out: &mut Seq<Case>) -> Result<(), Memory>
    ensures { OnOk result (out.new ≡ out.old ++ case_out scene ∷ []) }
{
    out.push(leaves(alloc, scene))
}

// ---- the parts of an instruction

fn load_part(
    alloc: Global,
    x: u32,
    place: Place,
    part: u32,
    pc: u32,
    scene: Scene,
    out: &mut Seq<Case>,
) -> Result<(), Memory>
    requires scene { IsScene scene }
    requires fresh { IsFresh scene }
    ensures { OnOk result (out.new ≡ out.old ++ (if part == 0 then slot_cases place 0 scene else
        (if part == 1 then slot_cases place 1 scene else load_cases x place pc scene))) }
{
    match part {
        0 => find_cases(alloc, place, scene, out),
        1 => touch_cases(alloc, place, scene, out),
        _ => load_cases(alloc, x, place, pc, scene, out),
    }
}

fn store_part(
    alloc: Global,
    place: Place,
    a: Atom,
    part: u32,
    pc: u32,
    scene: Scene,
    out: &mut Seq<Case>,
) -> Result<(), Memory>
    requires scene { IsScene scene }
    requires fresh { IsFresh scene }
    ensures { OnOk result (out.new ≡ out.old ++ (if part == 0 then slot_cases place 0 scene else
        (if part == 1 then slot_cases place 1 scene else store_cases place a pc scene))) }
{
    match part {
        0 => find_cases(alloc, place, scene, out),
        1 => touch_cases(alloc, place, scene, out),
        _ => store_cases(alloc, place, a, pc, scene, out),
    }
}

fn api_part(
    alloc: Global,
    x: Option<Var>,
    g: &Signature,
    atoms: &[Atom],
    part: u32,
    outcome: u32,
    pc: u32,
    scene: Scene,
    out: &mut Seq<Case>,
) -> Result<(), Memory>
    requires scene { IsScene scene }
    requires fresh { IsFresh scene }
    requires opposites { list_all has_opposite atoms.now ≡ true }
    ensures { OnOk result (out.new ≡ out.old ++ (if part == 0
        then outcome_cases g.now (holdings_of scene atoms.now) scene
        else answer_cases outcome g.now.answer x atoms.now pc scene)) }
{
    if part == 0 {
        call_cases(alloc, g, atoms, scene, out)
    } else {
        answer_cases(alloc, outcome, g.answer, x, atoms, pc, scene, out)
    }
}

fn call_part(alloc: Global, part: u32, scene: Scene, out: &mut Seq<Case>) -> Result<(), Memory>
    ensures { OnOk result (out.new ≡ out.old ++ (if part == 0 then passes_on 0 (forget_slots scene) ∷ [] else [])) }
{
    if part == 0 {
        add_forgotten(alloc, scene, out)
    } else {
        Ok(())
    }
}

fn return_part(
    alloc: Global,
    a: Option<Atom>,
    part: u32,
    scene: Scene,
    out: &mut Seq<Case>,
) -> Result<(), Memory>
    requires { have_opposites (Return a) ≡ true }
    ensures { OnOk result (out.new ≡ out.old ++ (if part == 0 then passes_on 0 (after_return a scene) ∷ []
        else case_out scene ∷ [])) }
{
    if part == 0 {
        return_case(alloc, a, scene, out)
    } else {
        add_leaves(alloc, scene, out)
    }
}

/// Adds the cases of a part whose instruction reads nothing that is unset.
fn part_cases(
    alloc: Global,
    instr: &Instr,
    pc: u32,
    part: u32,
    outcome: u32,
    scene: Scene,
    out: &mut Seq<Case>,
) -> Result<(), Memory>
    requires scene { IsScene scene }
    requires fresh { IsFresh scene }
    requires opposites { have_opposites instr.now ≡ true }
    requires place { pc + 1 < 2 ^ 32 }
    ensures { OnOk result (out.new ≡ out.old ++ part_cases instr.now pc part outcome scene) }
{
    let next = pc + 1;
    match instr {
        Instr::Set(x, a) => set_case(alloc, x.0, *a, next, scene, out),
        Instr::Arith(x, kind, op, a, b) => {
            arithmetic_cases(alloc, x.0, *kind, *op, *a, *b, next, scene, out)
        }
        Instr::Fit(x, kind, a) => conversion_cases(alloc, x.0, *kind, *a, next, scene, out),
        Instr::Compare(x, c, a, b) => comparison_cases(alloc, x.0, *c, *a, *b, next, scene, out),
        Instr::Load(x, place) => load_part(alloc, x.0, *place, part, next, scene, out),
        Instr::Store(place, a) => store_part(alloc, *place, *a, part, next, scene, out),
        Instr::Api(x, g, atoms) => {
            let atoms = atoms.as_slice();
            api_part(alloc, *x, g.get(), atoms, part, outcome, next, scene, out)
        }
        Instr::Call(_, _, _) => call_part(alloc, part, scene, out),
        Instr::Unset(x) => add_with_zero(alloc, x.0, Holding::Unset, next, scene, out),
        Instr::Jump(to) => add_same(alloc, to.0, scene, out),
        Instr::Branch(a, this, other) => branch_cases(alloc, *a, this.0, other.0, scene, out),
        Instr::Return(a) => return_part(alloc, *a, part, scene, out),
        Instr::Fall => Ok(()),
    }
}

/// Adds the cases of a part of an instruction at a place, inside a call after this outcome. After an `Err` some of them
/// may be there.
pub(crate) fn cases(
    alloc: Global,
    instr: &Instr,
    pc: u32,
    part: u32,
    outcome: u32,
    scene: Scene,
    out: &mut Seq<Case>,
) -> Result<(), Memory>
    requires scene { IsScene scene }
    requires fresh { IsFresh scene }
    requires opposites { have_opposites instr.now ≡ true }
    requires place { pc + 1 < 2 ^ 32 }
    ensures { OnOk result (out.new ≡ out.old ++ cases instr.now pc part outcome scene) }
{
    if are_set(&scene, instr, part) {
        part_cases(alloc, instr, pc, part, outcome, scene, out)
    } else {
        Ok(())
    }
}
