ghost use Rattle.std.specs.Prelude.{◌≡◌, ◌<◌, ◌++◌, ◌∷◌, ◌&&◌, [], true, IfOk, IfSome, OnOk, Some, map, pos};
ghost use Rattle.std.specs.List.{list_any};
ghost use Rattle.std.specs.declared.cmp.Ordering.TheVariants.{Equal};
ghost use Rattle.pungi_shape.specs.Bounds.{IsFresh, IsHeld, IsScene, has_opposite};
ghost use Rattle.pungi_shape.specs.Cases.{leads, leads_where};
ghost use Rattle.pungi_shape.specs.Comparisons.{orders, order_number, is_so, says, order_case};
ghost use Rattle.pungi_shape.specs.Comparisons.{number_comparison, is_static, is_field_of, is_base, are_one_field};
ghost use Rattle.pungi_shape.specs.Comparisons.{share_field, are_apart, is_same_so, says_same, token_comparison};
ghost use Rattle.pungi_shape.specs.Comparisons.{pointer_comparison, comparison_cases, branch, order_branch};
ghost use Rattle.pungi_shape.specs.Comparisons.{branch_cases};
ghost use Rattle.pungi_shape.specs.Forms.{minus, IsFactor, IsStorable};
ghost use Rattle.pungi_shape.specs.Numbers.{constant_of, value_by};
ghost use Rattle.pungi_shape.specs.Scenes.{form_of, merge, new_token};

use crate::cases::{add_leads, add_leads_under, add_same};
use crate::numbers::{difference, value_by};
use crate::{Case, Form, Holding, Scene, Shape, Spot, Tracked};
use pungi_base::{Memory, Seq, Value};
use pungi_code::Atom;
use pungi_meaning::{Cmp, is_true};
use std::alloc::Global;
use std::cmp::Ordering;

// ---- what a comparison says

/// Two numbers that compare so are this and 0.
fn order_number(o: Ordering) -> i64
    ensures { result ≡ order_number o }
{
    match o {
        Ordering::Less => -1,
        Ordering::Equal => 0,
        Ordering::Greater => 1,
    }
}

/// Whether a comparison holds of numbers that compare so.
fn is_so(c: Cmp, o: Ordering) -> bool
    ensures { result ≡ is_so c o }
{
    c.holds(Value::Int(order_number(o)), Value::Int(0))
}

/// Whether a comparison holds of two objects that are one, or aren't.
fn is_same_so(c: Cmp, same: bool) -> bool
    ensures { result ≡ is_same_so c same }
{
    c.holds(Value::Object(0), Value::Object(if same { 0 } else { 1 }))
}

/// The variable of a comparison says whether it holds.
fn say(alloc: Global, scene: &mut Scene, x: u32, holds: bool) -> Result<(), Memory>
    ensures { OnOk result (scene.new ≡ says x holds scene.old) }
{
    let form = Form::constant(alloc, scene.width, if holds { 1 } else { 0 })?;
    scene.put_var(x, Holding::Known(if holds { 1 } else { 0 }), form);
    Ok(())
}

/// Adds the case that the variable of a comparison says so.
fn add_says(
    alloc: Global,
    x: u32,
    holds: bool,
    pc: u32,
    scene: Scene,
    out: &mut Seq<Case>,
) -> Result<(), Memory>
    ensures { OnOk result (out.new ≡ out.old ++ leads pc (says x holds scene) ∷ []) }
{
    let mut after = scene;
    say(alloc, &mut after, x, holds)?;
    add_leads(alloc, pc, after, out)
}

// ---- numbers

/// The list of one equation.
fn one_equation(alloc: Global, form: Form) -> Result<Seq<Form>, Memory>
    ensures { IfOk result (λ guard. guard ≡ form ∷ []) }
{
    let forms = vec![in alloc; form]?;
    Ok(Seq::new(forms))
}

/// Adds the case that two numbers are equal: their difference is 0.
fn add_equal(
    alloc: Global,
    x: u32,
    holds: bool,
    difference: Form,
    pc: u32,
    scene: Scene,
    out: &mut Seq<Case>,
) -> Result<(), Memory>
    ensures { OnOk result (out.new ≡ out.old ++ leads_where difference pc (says x holds scene) ∷ []) }
{
    let guard = one_equation(alloc, difference)?;
    let mut after = scene;
    say(alloc, &mut after, x, holds)?;
    add_leads_under(guard, pc, after, out)
}

/// Adds the case that two numbers compare so.
fn add_order(
    alloc: Global,
    x: u32,
    c: Cmp,
    a: Atom,
    b: Atom,
    o: Ordering,
    pc: u32,
    scene: Scene,
    out: &mut Seq<Case>,
) -> Result<(), Memory>
    requires scene { IsScene scene }
    requires left { has_opposite a ≡ true }
    requires right { has_opposite b ≡ true }
    requires fresh { IsFresh scene }
    requires factor { IfSome (constant_of b) (λ n. IsFactor n) }
    requires storable { o ≡ Equal → IsStorable (minus (form_of scene a) (form_of scene b)) }
    ensures { OnOk result (out.new ≡ out.old ++ order_case (minus (form_of scene a) (form_of scene b)) o pc
        (says x (is_so c o) scene) ∷ []) }
{
    let holds = is_so(c, o);
    match o {
        Ordering::Less | Ordering::Greater => add_says(alloc, x, holds, pc, scene, out),
        Ordering::Equal => {
            let form = difference(alloc, &scene, a, b)?;
            add_equal(alloc, x, holds, form, pc, scene, out)
        }
    }
}

/// Adds this case, with a copy of the scene.
fn add_copied_order(
    alloc: Global,
    x: u32,
    c: Cmp,
    a: Atom,
    b: Atom,
    o: Ordering,
    pc: u32,
    scene: &Scene,
    out: &mut Seq<Case>,
) -> Result<(), Memory>
    requires scene { IsScene scene.now }
    requires left { has_opposite a ≡ true }
    requires right { has_opposite b ≡ true }
    requires fresh { IsFresh scene.now }
    requires factor { IfSome (constant_of b) (λ n. IsFactor n) }
    requires storable { o ≡ Equal → IsStorable (minus (form_of scene.now a) (form_of scene.now b)) }
    ensures { OnOk result (out.new ≡ out.old ++ order_case (minus (form_of scene.now a) (form_of scene.now b)) o pc
        (says x (is_so c o) scene.now) ∷ []) }
{
    let copy = scene.copy(alloc)?;
    add_order(alloc, x, c, a, b, o, pc, copy, out)
}

/// Adds the cases of a comparison of numbers.
fn number_comparison(
    alloc: Global,
    x: u32,
    c: Cmp,
    a: Atom,
    b: Atom,
    pc: u32,
    scene: Scene,
    out: &mut Seq<Case>,
) -> Result<(), Memory>
    requires scene { IsScene scene }
    requires fresh { IsFresh scene }
    requires left { has_opposite a ≡ true }
    requires right { has_opposite b ≡ true }
    ensures { OnOk result (out.new ≡ out.old ++ number_comparison x c a b pc scene) }
{
    match (value_by(&scene, a), value_by(&scene, b)) {
        (Some(m), Some(n)) => add_order(alloc, x, c, a, b, m.cmp(&n), pc, scene, out),
        _ => {
            add_copied_order(alloc, x, c, a, b, Ordering::Less, pc, &scene, out)?;
            add_copied_order(alloc, x, c, a, b, Ordering::Equal, pc, &scene, out)?;
            add_order(alloc, x, c, a, b, Ordering::Greater, pc, scene, out)
        }
    }
}

// ---- objects

/// Whether a token is the object of a static name.
fn is_static(shape: &Shape, t: u32) -> bool
    ensures { result ≡ is_static shape.now t }
{
    shape.statics.as_slice().iter().any(|k| k.1.is_token(t))
}

/// Whether a slot is a field of this token.
fn is_field_of(t: u32, spot: Spot) -> bool
    ensures { result ≡ is_field_of t spot }
{
    match spot {
        Spot::Global(_) => false,
        Spot::Field {
            base,
            tag: _,
            field: _,
        } => base == t,
    }
}

/// Whether a slot that is tracked is a field of this token.
fn is_base(shape: &Shape, t: u32) -> bool
    ensures { result ≡ is_base shape.now t }
{
    shape
        .slots
        .as_slice()
        .iter()
        .any(|r| is_field_of(t, r.spot))
}

/// Whether two slots are fields of one tag and name.
pub(crate) fn are_one_field(p: Spot, q: Spot) -> bool
    ensures { result ≡ are_one_field p q }
{
    match (p, q) {
        (
            Spot::Field {
                base: _,
                tag,
                field,
            },
            Spot::Field {
                base: _,
                tag: other_tag,
                field: other_field,
            },
        ) => tag.0 == other_tag.0 && field.0 == other_field.0,
        _ => false,
    }
}

/// Whether a token has such a field that is tracked.
fn has_field(slots: &[Tracked], u: u32, p: Spot) -> bool
    ensures { result ≡ list_any (λ r. is_field_of u r.spot && are_one_field p r.spot) slots.now }
{
    slots
        .iter()
        .any(|r| is_field_of(u, r.spot) && are_one_field(p, r.spot))
}

/// Whether two tokens have fields of one tag and name that are tracked.
fn share_field(shape: &Shape, t: u32, u: u32) -> bool
    ensures { result ≡ share_field shape.now t u }
{
    let slots = shape.slots.as_slice();
    slots
        .iter()
        .any(|q| is_field_of(t, q.spot) && has_field(slots, u, q.spot))
}

/// Whether two tokens are different objects for sure.
pub(crate) fn are_apart(shape: &Shape, t: u32, u: u32) -> bool
    ensures { result ≡ are_apart shape.now t u }
{
    is_static(shape, t) && is_static(shape, u)
        || shape.is_made(t) && (shape.is_made(u) || is_base(shape, u))
        || shape.is_made(u) && is_base(shape, t)
        || share_field(shape, t, u)
}

/// Adds the case that two tokens are one object.
fn add_merged(
    alloc: Global,
    x: u32,
    c: Cmp,
    t: u32,
    u: u32,
    pc: u32,
    scene: &Scene,
    out: &mut Seq<Case>,
) -> Result<(), Memory>
    requires scene { IsScene scene.now }
    requires fresh { IsFresh scene.now }
    requires first { t < new_token scene.now }
    requires second { u < new_token scene.now }
    ensures { OnOk result (out.new ≡ out.old ++ says_same x c true pc (merge t u scene.now) ∷ []) }
{
    let mut after = scene.copy(alloc)?;
    after.merge(alloc, t, u)?;
    say(alloc, &mut after, x, is_same_so(c, true))?;
    add_leads(alloc, pc, after, out)
}

/// Adds the cases of a comparison of tokens.
fn token_comparison(
    alloc: Global,
    x: u32,
    c: Cmp,
    t: u32,
    u: u32,
    pc: u32,
    scene: Scene,
    out: &mut Seq<Case>,
) -> Result<(), Memory>
    requires scene { IsScene scene }
    requires fresh { IsFresh scene }
    requires first { t < new_token scene }
    requires second { u < new_token scene }
    ensures { OnOk result (out.new ≡ out.old ++ token_comparison x c t u pc scene) }
{
    if t == u {
        return add_says(alloc, x, is_same_so(c, true), pc, scene, out);
    }
    if !are_apart(&scene.shape, t, u) {
        add_merged(alloc, x, c, t, u, pc, &scene, out)?;
    }
    add_says(alloc, x, is_same_so(c, false), pc, scene, out)
}

/// Adds the cases of a comparison of pointers.
fn pointer_comparison(
    alloc: Global,
    x: u32,
    c: Cmp,
    h: Holding,
    k: Holding,
    pc: u32,
    scene: Scene,
    out: &mut Seq<Case>,
) -> Result<(), Memory>
    requires scene { IsScene scene }
    requires fresh { IsFresh scene }
    requires first { IsHeld scene h }
    requires second { IsHeld scene k }
    ensures { OnOk result (out.new ≡ out.old ++ pointer_comparison x c h k pc scene) }
{
    match (h, k) {
        (Holding::Token(t), Holding::Token(u)) => {
            token_comparison(alloc, x, c, t, u, pc, scene, out)
        }
        (Holding::Null, Holding::Null) | (Holding::Text, Holding::Text) => {
            add_says(alloc, x, is_same_so(c, true), pc, scene, out)
        }
        _ => add_says(alloc, x, is_same_so(c, false), pc, scene, out),
    }
}

/// Adds the cases of a comparison.
pub(crate) fn comparison_cases(
    alloc: Global,
    x: u32,
    c: Cmp,
    a: Atom,
    b: Atom,
    pc: u32,
    scene: Scene,
    out: &mut Seq<Case>,
) -> Result<(), Memory>
    requires scene { IsScene scene }
    requires fresh { IsFresh scene }
    requires left { has_opposite a ≡ true }
    requires right { has_opposite b ≡ true }
    ensures { OnOk result (out.new ≡ out.old ++ comparison_cases x c a b pc scene) }
{
    let (h, k) = (scene.holding_of(a), scene.holding_of(b));
    if h.is_number() && k.is_number() {
        number_comparison(alloc, x, c, a, b, pc, scene, out)
    } else {
        pointer_comparison(alloc, x, c, h, k, pc, scene, out)
    }
}

// ---- conditions

/// The instruction to which a condition leads.
fn branch(holds: bool, this: u32, other: u32) -> u32
    ensures { result ≡ branch holds this other }
{
    if holds { this } else { other }
}

/// Adds the case that a number is 0.
fn add_zero(
    alloc: Global,
    a: Atom,
    pc: u32,
    scene: Scene,
    out: &mut Seq<Case>,
) -> Result<(), Memory>
    requires { has_opposite a ≡ true }
    ensures { OnOk result (out.new ≡ out.old ++ leads_where (form_of scene a) pc scene ∷ []) }
{
    let form = scene.form_of(alloc, a)?;
    let guard = one_equation(alloc, form)?;
    add_leads_under(guard, pc, scene, out)
}

/// Adds the case that a number compares so with 0.
fn add_order_branch(
    alloc: Global,
    a: Atom,
    this: u32,
    other: u32,
    o: Ordering,
    scene: Scene,
    out: &mut Seq<Case>,
) -> Result<(), Memory>
    requires { has_opposite a ≡ true }
    ensures { OnOk result (out.new ≡ out.old ++ order_branch (form_of scene a) this other scene o ∷ []) }
{
    let pc = branch(is_true(Value::Int(order_number(o))), this, other);
    match o {
        Ordering::Less | Ordering::Greater => add_same(alloc, pc, scene, out),
        Ordering::Equal => add_zero(alloc, a, pc, scene, out),
    }
}

/// Adds this case, with a copy of the scene.
fn add_copied_branch(
    alloc: Global,
    a: Atom,
    this: u32,
    other: u32,
    o: Ordering,
    scene: &Scene,
    out: &mut Seq<Case>,
) -> Result<(), Memory>
    requires { has_opposite a ≡ true }
    ensures { OnOk result (out.new ≡ out.old ++ order_branch (form_of scene.now a) this other scene.now o ∷ []) }
{
    let copy = scene.copy(alloc)?;
    add_order_branch(alloc, a, this, other, o, copy, out)
}

/// Adds the cases of a branch on a number.
fn number_branches(
    alloc: Global,
    a: Atom,
    this: u32,
    other: u32,
    scene: Scene,
    out: &mut Seq<Case>,
) -> Result<(), Memory>
    requires { has_opposite a ≡ true }
    ensures { OnOk result (out.new ≡ out.old ++ map (order_branch (form_of scene a) this other scene)
        (orders (value_by scene a) (Some (pos 0)))) }
{
    match value_by(&scene, a) {
        Some(n) => add_order_branch(alloc, a, this, other, n.cmp(&0), scene, out),
        None => {
            add_copied_branch(alloc, a, this, other, Ordering::Less, &scene, out)?;
            add_copied_branch(alloc, a, this, other, Ordering::Equal, &scene, out)?;
            add_order_branch(alloc, a, this, other, Ordering::Greater, scene, out)
        }
    }
}

/// Adds the cases of a branch.
pub(crate) fn branch_cases(
    alloc: Global,
    a: Atom,
    this: u32,
    other: u32,
    scene: Scene,
    out: &mut Seq<Case>,
) -> Result<(), Memory>
    requires { has_opposite a ≡ true }
    ensures { OnOk result (out.new ≡ out.old ++ branch_cases a this other scene) }
{
    match scene.holding_of(a) {
        Holding::Null => add_same(alloc, other, scene, out),
        Holding::Text | Holding::Token(_) => add_same(alloc, this, scene, out),
        Holding::Dead | Holding::Unset | Holding::Known(_) | Holding::Number => {
            number_branches(alloc, a, this, other, scene, out)
        }
    }
}
