// What a called function of the file leaves behind by one of its exits.
ghost use Rattle.std.specs.Prelude.{◌≡◌, ◌+◌, ◌<◌, ◌≤◌, ◌^◌, ◌++◌, ◌∷◌, [], List, None, false, get_or, true, IfOk};
ghost use Rattle.std.specs.Prelude.{OnOk};
ghost use Rattle.std.specs.List.{list_all};
ghost use Rattle.pungi_shape.specs.Bounds.{HasWidth, IsFresh, IsHeld, IsPlain, IsScene, has_opposite};
ghost use Rattle.pungi_shape.specs.Calls.{put_if};
ghost use Rattle.pungi_shape.specs.Exits.{add_all, add_form_to, add_one, after_exit, after_leaving, agreement};
ghost use Rattle.pungi_shape.specs.Exits.{beside, exit_balance, number_agrees, numbers_agree, put_object, put_result};
ghost use Rattle.pungi_shape.specs.Forms.{minus, unit, zero_form};
ghost use Rattle.pungi_shape.specs.Leaving.{AreAtoms, IsExitClass, IsLight, size, weight};
ghost use Rattle.pungi_shape.specs.Limits.{most_coordinates};
ghost use Rattle.pungi_shape.specs.Scenes.{new_token, number_form, number_forms};
ghost use Rattle.pungi_shape.specs.Shapes.{count_of_numbers, tokens_of};

use crate::edges::MOST_COORDINATES;
use crate::exits::{after_entry, after_returned};
use crate::joins::{arguments_of, atom_of, join_all};
use crate::numbering::Numbering;
use crate::numbers::constant_of;
use crate::shapes::one_if_number;
use crate::{Form, Holding, Scene, Shape};
use pungi_base::{Memory, Seq};
use pungi_code::{Atom, Var};
use std::alloc::Global;

// ---- numbers at entry

/// Adds the form that is 0 where a number at entry, which is a coordinate, is the argument.
fn push_number_agrees(
    alloc: Global,
    scene: &Scene,
    h: Holding,
    k: u32,
    a: Atom,
    forms: &mut Seq<Form>,
) -> Result<(), Memory>
    requires scene { IsScene scene.now }
    requires plain { IsPlain scene.now }
    requires after { 0 < k }
    requires opposite { has_opposite a ≡ true }
    ensures { OnOk result (forms.new ≡ forms.old
        ++ number_agrees scene.now h (number_form scene.now.width k h) a) }
{
    if h.is_number() {
        let _ = constant_of(a);
        let number = Form::unit(alloc, scene.width, k)?;
        let argument = scene.form_of(alloc, a)?;
        forms.push(number.minus(alloc, &argument)?)
    } else {
        Ok(())
    }
}

/// Adds these forms for numbers at entry, which are coordinates from this one on.
fn push_numbers_agree(
    alloc: Global,
    scene: &Scene,
    from: u32,
    entry: &[Holding],
    atoms: &[Atom],
    forms: &mut Seq<Form>,
) -> Result<(), Memory>
    requires scene { IsScene scene.now }
    requires plain { IsPlain scene.now }
    requires after { 0 < from }
    requires fits { from + count_of_numbers entry.now < 2 ^ 32 }
    requires opposites { list_all has_opposite atoms.now ≡ true }
    ensures { OnOk result (forms.new ≡ forms.old
        ++ numbers_agree scene.now (beside entry.now (number_forms scene.now.width from entry.now) atoms.now)) }
{
    let mut k = from;
    for i in 0..entry.len() {
        if i < atoms.len() {
            push_number_agrees(alloc, scene, entry[i], k, atoms[i], forms)?;
        }
        k += one_if_number(entry[i]) as u32;
    }
    Ok(())
}

/// The form that is 0 where the leading coordinates agree.
fn leading_agrees(alloc: Global, width: u32, w: u32) -> Result<Form, Memory>
    ensures { IfOk result (λ form. form ≡ minus (unit width w) (unit width 0)) }
{
    let leading = Form::unit(alloc, width, 0)?;
    Form::unit(alloc, width, w)?.minus(alloc, &leading)
}

/// The forms that are 0 where what the called function began with is what it was called with. The coordinates of its
/// exit class stand after w others.
pub(crate) fn agreement(
    alloc: Global,
    w: u32,
    exit: &Shape,
    atoms: &[Atom],
    scene: &Scene,
) -> Result<Seq<Form>, Memory>
    requires exit { IsExitClass exit.now }
    requires before { w ≤ 256 }
    requires scene { IsScene scene.now }
    requires plain { IsPlain scene.now }
    requires opposites { list_all has_opposite atoms.now ≡ true }
    ensures { IfOk result (λ forms. forms ≡ agreement w exit.now atoms.now scene.now) }
{
    let mut forms = Seq::new(Vec::new(alloc));
    forms.push(leading_agrees(alloc, scene.width, w)?)?;
    let from = w + after_returned(exit) as u32;
    push_numbers_agree(alloc, scene, from, exit.entry.as_slice(), atoms, &mut forms)?;
    Ok(forms)
}

// ---- balances

/// The balance of what stands for a token changes by a form, if anything does.
fn add_one(alloc: Global, a: Option<Atom>, f: &Form, scene: &mut Scene) -> Result<(), Memory>
    requires scene { IsScene scene.old }
    requires light { IsLight scene.old }
    requires width { HasWidth scene.old.width f.now }
    requires small { size f.now ≤ 1 }
    ensures { OnOk result (scene.new ≡ add_one a f.now scene.old) }
{
    match a {
        None => Ok(()),
        Some(a) => match scene.holding_of(a) {
            Holding::Token(t) => scene.add_form(alloc, t, f),
            _ => Ok(()),
        },
    }
}

/// The balance of a token of an exit class, whose coordinates of balances begin there.
fn exit_balance(alloc: Global, width: u32, first: u32, u: u32) -> Result<Form, Memory>
    requires { first + u < 2 ^ 32 }
    ensures { IfOk result (λ form. form ≡ unit width (first + u)) }
{
    Form::unit(alloc, width, first + u)
}

/// What a call did to the objects at entry and to static ones, it did to those that stand for them. After an `Err` some
/// of it may be done.
fn add_all(
    alloc: Global,
    w: u32,
    exit: &Shape,
    atoms: &[Option<Atom>],
    scene: &mut Scene,
) -> Result<(), Memory>
    requires exit { IsExitClass exit.now }
    requires before { w ≤ 256 }
    requires scene { IsScene scene.old }
    requires light { weight scene.old < 2 ^ 61 }
    ensures { OnOk result ((pairs : List (Holding × Atom)) → AreAtoms pairs atoms.now
        → scene.new ≡ add_all w exit.now pairs (tokens_of exit.now) scene.old) }
{
    let first = w + after_entry(exit) as u32;
    let numbering = Numbering::of_exit(alloc, exit, MOST_COORDINATES)?;
    let tokens = numbering.tokens.as_slice();
    for u in tokens {
        let balance = exit_balance(alloc, scene.width, first, *u)?;
        add_one(alloc, atom_of(atoms, *u), &balance, scene)?;
    }
    Ok(())
}

// ---- the result

/// The variable of a result gets it, if there is one.
fn put_if(x: Option<Var>, h: Holding, f: Form, scene: &mut Scene)
    ensures { scene.new ≡ put_if x h f scene.old }
{
    if let Some(x) = x {
        scene.put_var(x.0, h, f);
    }
}

/// The variable of a result gets the object that stands for a token, or another one, with this balance.
fn put_object(
    alloc: Global,
    a: Option<Atom>,
    balance: Form,
    x: Option<Var>,
    scene: &mut Scene,
) -> Result<(), Memory>
    requires few { new_token scene.old < 2 ^ 32 }
    ensures { OnOk result (scene.new ≡ put_object a balance x scene.old) }
{
    let h = match a {
        Some(a) => scene.holding_of(a),
        None => {
            let t = scene.new_token();
            scene.put_token(balance, false)?;
            Holding::Token(t)
        }
    };
    put_if(x, h, Form::zero(alloc, scene.width), scene);
    Ok(())
}

/// The variable of a result gets what the exit class says.
fn put_result(
    alloc: Global,
    w: u32,
    exit: &Shape,
    atoms: &[Option<Atom>],
    x: Option<Var>,
    scene: &mut Scene,
) -> Result<(), Memory>
    requires exit { IsExitClass exit.now }
    requires before { w ≤ 256 }
    requires few { new_token scene.old < 2 ^ 32 }
    ensures { OnOk result ((pairs : List (Holding × Atom)) → AreAtoms pairs atoms.now
        → scene.new ≡ put_result w exit.now pairs x exit.now.returned scene.old) }
{
    match exit.returned {
        Holding::Dead | Holding::Unset => Ok(()),
        Holding::Token(u) => {
            let first = w + after_entry(exit) as u32;
            let balance = exit_balance(alloc, scene.width, first, u)?;
            put_object(alloc, atom_of(atoms, u), balance, x, scene)?;
            Ok(())
        }
        Holding::Known(_) | Holding::Number => {
            let number = Form::unit(alloc, scene.width, w + 1)?;
            put_if(x, exit.returned, number, scene);
            Ok(())
        }
        Holding::Null | Holding::Text => {
            put_if(x, exit.returned, Form::zero(alloc, scene.width), scene);
            Ok(())
        }
    }
}

/// What is left where a called function left by an exit class, whose coordinates stand after w others. After an `Err`
/// some of it may be done.
pub(crate) fn after_leaving(
    alloc: Global,
    w: u32,
    exit: &Shape,
    x: Option<Var>,
    atoms: &[Atom],
    scene: &mut Scene,
) -> Result<(), Memory>
    requires exit { IsExitClass exit.now }
    requires before { w ≤ 256 }
    requires scene { IsScene scene.old }
    requires fresh { IsFresh scene.old }
    requires narrow { scene.old.width < 2 ^ 32 }
    ensures { OnOk result (scene.new ≡ after_leaving w exit.now x atoms.now scene.old) }
{
    let pairs = arguments_of(alloc, exit, atoms)?;
    let stands = join_all(alloc, pairs.as_slice(), scene)?;
    add_all(alloc, w, exit, stands.as_slice(), scene)?;
    put_result(alloc, w, exit, stands.as_slice(), x, scene)?;
    Ok(())
}
