ghost use Rattle.std.specs.Prelude.{◌≡◌, ◌++◌, true, false, is_some, IfOk, IfSome, OnOk};
ghost use Rattle.pungi_shape.specs.Bounds.{IsFresh, IsScene, has_opposite};
ghost use Rattle.pungi_shape.specs.Numbers.{constant_of, known_of, known_by, value_by, small_constant, linear};
ghost use Rattle.pungi_shape.specs.Forms.{plus, minus, times, IsFactor, IsStorable};
ghost use Rattle.pungi_shape.specs.Numbers.{stays_out, result_holding, arithmetic_cases, does_not_fit};
ghost use Rattle.pungi_shape.specs.Numbers.{conversion_cases};
ghost use Rattle.pungi_shape.specs.Scenes.{Scene as SceneOf, form_of};

use crate::cases::{add_frees, add_with_var};
use crate::shapes::holding_of_number;
use crate::{Case, Form, Holding, Scene};
use pungi_base::{Memory, Seq};
use pungi_code::Atom;
use pungi_meaning::{Op, arithmetic, fits};
use pungi_types::ValueKind;
use std::alloc::Global;

/// The constant that an atom is.
pub(crate) fn constant_of(a: Atom) -> Option<i64>
    ensures value { result ≡ constant_of a }
    ensures factor { IfSome result (λ n. IsFactor n) }
{
    match a {
        Atom::Int(n) => Some(n),
        Atom::Var(_) | Atom::Null | Atom::Text | Atom::Static(_) => None,
    }
}

/// The number that is known to be held.
fn known_of(h: Holding) -> Option<i64>
    ensures { result ≡ known_of h }
{
    match h {
        Holding::Known(n) => Some(n as i64),
        Holding::Dead
        | Holding::Unset
        | Holding::Null
        | Holding::Text
        | Holding::Number
        | Holding::Token(_) => None,
    }
}

/// The number that an atom is known to be.
fn known_by(scene: &Scene, a: Atom) -> Option<i64>
    ensures { result ≡ known_by scene.now a }
{
    known_of(scene.holding_of(a))
}

/// The number of an atom that is a constant, or known.
pub(crate) fn value_by(scene: &Scene, a: Atom) -> Option<i64>
    ensures value { result ≡ value_by scene.now a }
    ensures constant { IfSome (constant_of a) (λ n. IsFactor n) }
{
    match constant_of(a) {
        Some(n) => Some(n),
        None => known_by(scene, a),
    }
}

/// The constant that an atom is, where it lies within 2^20.
fn small_constant(a: Atom) -> Option<i64>
    ensures { result ≡ small_constant a }
{
    match constant_of(a) {
        Some(n) if -1_048_576 <= n && n <= 1_048_576 => Some(n),
        _ => None,
    }
}

/// What is known of a result.
fn result_holding(op: Op, kind: ValueKind, left: Option<i64>, right: Option<i64>) -> Holding
    ensures { result ≡ result_holding op kind left right }
{
    let (Some(m), Some(n)) = (left, right) else {
        return Holding::Number;
    };
    match arithmetic(op, kind, m, n) {
        Some(result) => holding_of_number(result),
        None => Holding::Number,
    }
}

/// Whether two constants have no result in the kind's range.
fn stays_out(op: Op, kind: ValueKind, left: Option<i64>, right: Option<i64>) -> bool
    ensures { result ≡ stays_out op kind left right }
{
    match (left, right) {
        (Some(m), Some(n)) => arithmetic(op, kind, m, n).is_none(),
        _ => false,
    }
}

// ---- linear results

/// The sum of two atoms, as numbers.
fn sum(alloc: Global, scene: &Scene, a: Atom, b: Atom) -> Result<Form, Memory>
    requires scene { IsScene scene.now }
    requires left { has_opposite a ≡ true }
    requires right { has_opposite b ≡ true }
    requires storable { IsStorable (plus (form_of scene.now a) (form_of scene.now b)) }
    ensures { IfOk result (λ f. f ≡ plus (form_of scene.now a) (form_of scene.now b)) }
{
    let left = scene.form_of(alloc, a)?;
    let right = scene.form_of(alloc, b)?;
    left.plus(alloc, &right)
}

/// The difference of two atoms, as numbers.
pub(crate) fn difference(alloc: Global, scene: &Scene, a: Atom, b: Atom) -> Result<Form, Memory>
    requires scene { IsScene scene.now }
    requires fresh { IsFresh scene.now }
    requires left { has_opposite a ≡ true }
    requires right { has_opposite b ≡ true }
    requires factor { IfSome (constant_of b) (λ n. IsFactor n) }
    requires storable { IsStorable (minus (form_of scene.now a) (form_of scene.now b)) }
    ensures { IfOk result (λ f. f ≡ minus (form_of scene.now a) (form_of scene.now b)) }
{
    let left = scene.form_of(alloc, a)?;
    let right = scene.form_of(alloc, b)?;
    left.minus(alloc, &right)
}

/// A multiple of an atom, as a number.
fn multiple(alloc: Global, scene: &Scene, n: i64, a: Atom) -> Result<Form, Memory>
    requires opposite { has_opposite a ≡ true }
    requires storable { IsStorable (times n (form_of scene.now a)) }
    ensures { IfOk result (λ f. f ≡ times n (form_of scene.now a)) }
{
    let form = scene.form_of(alloc, a)?;
    form.times(alloc, n)
}

/// The form of a result, where it is linear.
fn linear(
    alloc: Global,
    op: Op,
    kind: ValueKind,
    scene: &Scene,
    a: Atom,
    b: Atom,
) -> Result<Option<Form>, Memory>
    requires scene { IsScene scene.now }
    requires fresh { IsFresh scene.now }
    requires left { has_opposite a ≡ true }
    requires right { has_opposite b ≡ true }
    requires left_factor { IfSome (constant_of a) (λ n. IsFactor n) }
    requires right_factor { IfSome (constant_of b) (λ n. IsFactor n) }
    requires inside { stays_out op kind (constant_of a) (constant_of b) ≡ false }
    ensures { IfOk result (λ o. o ≡ linear op scene.now a b) }
{
    match op {
        Op::Add => Ok(Some(sum(alloc, scene, a, b)?)),
        Op::Sub => Ok(Some(difference(alloc, scene, a, b)?)),
        Op::Mul => match (small_constant(a), small_constant(b)) {
            (Some(m), _) => Ok(Some(multiple(alloc, scene, m, b)?)),
            (None, Some(n)) => Ok(Some(multiple(alloc, scene, n, a)?)),
            (None, None) => Ok(None),
        },
        Op::Div | Op::Rem => Ok(None),
    }
}

/// Whether a result is linear.
fn is_linear(op: Op, a: Atom, b: Atom) -> bool
    ensures { (s : SceneOf) → is_some (linear op s a b) ≡ result }
{
    match op {
        Op::Add | Op::Sub => true,
        Op::Mul => small_constant(a).is_some() || small_constant(b).is_some(),
        Op::Div | Op::Rem => false,
    }
}

// ---- cases

/// Adds the cases of arithmetic.
pub(crate) fn arithmetic_cases(
    alloc: Global,
    x: u32,
    kind: ValueKind,
    op: Op,
    a: Atom,
    b: Atom,
    pc: u32,
    scene: Scene,
    out: &mut Seq<Case>,
) -> Result<(), Memory>
    requires scene { IsScene scene }
    requires fresh { IsFresh scene }
    requires left { has_opposite a ≡ true }
    requires right { has_opposite b ≡ true }
    ensures { OnOk result (out.new ≡ out.old ++ arithmetic_cases x kind op a b pc scene) }
{
    let h = result_holding(op, kind, known_by(&scene, a), known_by(&scene, b));
    let (m, n) = (constant_of(a), constant_of(b));
    if stays_out(op, kind, m, n) {
        if is_linear(op, a, b) {
            return Ok(());
        }
        return add_frees(alloc, x, h, pc, scene, out);
    }
    match linear(alloc, op, kind, &scene, a, b)? {
        Some(form) => add_with_var(alloc, x, h, form, pc, scene, out),
        None => add_frees(alloc, x, h, pc, scene, out),
    }
}

/// Whether a constant is past the kind's range.
fn does_not_fit(kind: ValueKind, n: Option<i64>) -> bool
    ensures { result ≡ does_not_fit kind n }
{
    match n {
        Some(n) => !fits(kind, n),
        None => false,
    }
}

/// Adds the cases of a conversion.
pub(crate) fn conversion_cases(
    alloc: Global,
    x: u32,
    kind: ValueKind,
    a: Atom,
    pc: u32,
    scene: Scene,
    out: &mut Seq<Case>,
) -> Result<(), Memory>
    requires { has_opposite a ≡ true }
    ensures { OnOk result (out.new ≡ out.old ++ conversion_cases x kind a pc scene) }
{
    if does_not_fit(kind, constant_of(a)) {
        return Ok(());
    }
    let form = scene.form_of(alloc, a)?;
    add_with_var(alloc, x, scene.holding_of(a), form, pc, scene, out)
}
