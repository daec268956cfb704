// Which objects are one where a called function left by an exit class.
ghost use Rattle.std.specs.Prelude.{◌≡◌, ◌<◌, ◌++◌, ◌∷◌, [], List, Some, None, get_or, is_some, length, map, replicate};
ghost use Rattle.std.specs.Prelude.{slice_set, if◌then◌else◌, IfOk, OnOk};
ghost use Rattle.std.specs.List.{All, zip};
ghost use Rattle.pungi_shape.specs.Bounds.{AreTokens, IsBelow, IsHeld, IsScene, IsShape};
ghost use Rattle.pungi_shape.specs.Exits.{are_alike, arguments_of, is_alike, join_all, join_holdings, join_one};
ghost use Rattle.pungi_shape.specs.Exits.{join_with, may_leave, statics_differ, with_static};
ghost use Rattle.pungi_shape.specs.Leaving.{AreAtoms, bare_scene, IsExitClass, IsLight};
ghost use Rattle.pungi_shape.specs.Limits.{most_coordinates};
ghost use Rattle.pungi_shape.specs.Scenes.{Scene, holding_of, scene_of};

use crate::edges::MOST_COORDINATES;
use crate::entries::{level_balances, push_zeros};
use crate::numbering::Numbering;
use crate::{Form, Holding, Scene, Shape};
use pungi_base::{Memory, Seq};
use pungi_code::Atom;
use std::alloc::Global;

// ---- values at entry

/// Whether a value at entry may be this argument.
fn is_alike(h: Holding, k: Holding) -> bool
    ensures { result ≡ is_alike h k }
{
    match (h, k) {
        (Holding::Null, Holding::Null) => true,
        (Holding::Text, Holding::Text) => true,
        (Holding::Token(_), Holding::Token(_)) => true,
        _ => h.is_number() && k.is_number(),
    }
}

/// Whether these values at entry may be these arguments.
fn are_alike(entry: &[Holding], atoms: &[Atom], shape: &Shape) -> bool
    ensures { (s : Scene) → s.shape ≡ shape.now → result ≡ are_alike entry.now (map (holding_of s) atoms.now) }
{
    if entry.len() != atoms.len() {
        return false;
    }
    for i in 0..entry.len() {
        if !is_alike(entry[i], shape.holding_of(atoms[i])) {
            return false;
        }
    }
    true
}

// ---- which objects are one

fn push_arguments(
    entry: &[Holding],
    atoms: &[Atom],
    pairs: &mut Seq<(Holding, Atom)>,
) -> Result<(), Memory>
    ensures { OnOk result (pairs.new ≡ pairs.old ++ zip entry.now atoms.now) }
{
    for i in 0..entry.len() {
        if i < atoms.len() {
            pairs.push((entry[i], atoms[i]))?;
        }
    }
    Ok(())
}

fn push_statics(statics: &[(u32, Holding)], pairs: &mut Seq<(Holding, Atom)>) -> Result<(), Memory>
    ensures { OnOk result (pairs.new ≡ pairs.old ++ map with_static statics.now) }
{
    for k in statics {
        pairs.push((k.1, Atom::Static(k.0)))?;
    }
    Ok(())
}

/// The values at entry and the static objects of an exit class, each beside what stands for it at the caller.
pub(crate) fn arguments_of(
    alloc: Global,
    exit: &Shape,
    atoms: &[Atom],
) -> Result<Seq<(Holding, Atom)>, Memory>
    ensures { IfOk result (λ pairs. pairs ≡ arguments_of exit.now atoms.now) }
{
    let mut pairs = Seq::new(Vec::new(alloc));
    push_arguments(exit.entry.as_slice(), atoms, &mut pairs)?;
    push_statics(exit.statics.as_slice(), &mut pairs)?;
    Ok(pairs)
}

/// What stands for a token of an exit class, if anything does.
pub(crate) fn atom_of(atoms: &[Option<Atom>], u: u32) -> Option<Atom>
    ensures { result ≡ get_or atoms.now u None }
{
    if (u as usize) < atoms.len() {
        atoms[u as usize]
    } else {
        None
    }
}

/// An atom stands for a token, unless another one does.
fn put_atom(u: u32, a: Atom, atoms: &mut Seq<Option<Atom>>)
    ensures { atoms.new ≡ (if is_some (get_or atoms.old u None) then atoms.old else slice_set atoms.old u (Some a)) }
{
    if atom_of(atoms.as_slice(), u).is_none() && (u as usize) < atoms.len() {
        atoms.set(u as usize, Some(a));
    }
}

/// What is held is one object, if both are objects.
fn join_holdings(alloc: Global, h: Holding, k: Holding, scene: &mut Scene) -> Result<(), Memory>
    requires scene { IsScene scene.old }
    requires light { IsLight scene.old }
    requires first { IsHeld scene.old h }
    requires second { IsHeld scene.old k }
    ensures { OnOk result (scene.new ≡ join_holdings h k scene.old) }
{
    match (h, k) {
        (Holding::Token(t), Holding::Token(u)) => {
            if t == u {
                Ok(())
            } else {
                scene.merge(alloc, t, u)
            }
        }
        _ => Ok(()),
    }
}

/// Two atoms are one object, if both are objects.
fn join_one(alloc: Global, b: Option<Atom>, a: Atom, scene: &mut Scene) -> Result<(), Memory>
    requires scene { IsScene scene.old }
    requires light { IsLight scene.old }
    ensures { OnOk result (scene.new ≡ join_one b a scene.old) }
{
    match b {
        None => Ok(()),
        Some(b) => join_holdings(alloc, scene.holding_of(b), scene.holding_of(a), scene),
    }
}

/// What stands for a token becomes one object with what stands for it already. After an `Err` some of it may be done.
fn join_with(
    alloc: Global,
    h: Holding,
    a: Atom,
    atoms: &mut Seq<Option<Atom>>,
    scene: &mut Scene,
) -> Result<(), Memory>
    requires scene { IsScene scene.old }
    requires light { IsLight scene.old }
    requires token { IsBelow most_coordinates h }
    ensures scene { OnOk result ((before : List (Holding × Atom)) → AreAtoms before atoms.old
        → scene.new ≡ join_with before h a scene.old) }
    ensures atoms { OnOk result ((before : List (Holding × Atom)) → AreAtoms before atoms.old
        → AreAtoms (before ++ (h, a) ∷ []) atoms.new) }
{
    match h {
        Holding::Token(u) => {
            join_one(alloc, atom_of(atoms.as_slice(), u), a, scene)?;
            put_atom(u, a, atoms);
            Ok(())
        }
        _ => Ok(()),
    }
}

/// Nothing stands for a token yet.
fn no_atoms(alloc: Global) -> Result<Seq<Option<Atom>>, Memory>
    ensures { IfOk result (λ atoms. atoms ≡ replicate most_coordinates None) }
{
    let mut atoms = Seq::new(Vec::with_capacity(alloc, MOST_COORDINATES)?);
    for _ in 0..MOST_COORDINATES {
        atoms.push(None)?;
    }
    Ok(atoms)
}

/// What stands for one token becomes one object. Returns, by token, what stands for it. After an `Err` some of it may
/// be done.
pub(crate) fn join_all(
    alloc: Global,
    pairs: &[(Holding, Atom)],
    scene: &mut Scene,
) -> Result<Seq<Option<Atom>>, Memory>
    requires scene { IsScene scene.old }
    requires light { IsLight scene.old }
    requires tokens { All (λ p. IsBelow most_coordinates p.0) pairs.now }
    ensures scene { OnOk result (scene.new ≡ join_all [] pairs.now scene.old) }
    ensures atoms { IfOk result (λ atoms. AreAtoms pairs.now atoms) }
{
    let mut atoms = no_atoms(alloc)?;
    for p in pairs {
        join_with(alloc, p.0, p.1, &mut atoms, scene)?;
    }
    Ok(atoms)
}

/// A scene of this shape, over no coordinates.
fn bare_scene(alloc: Global, shape: &Shape) -> Result<Scene, Memory>
    ensures { IfOk result (λ scene. scene ≡ bare_scene shape.now) }
{
    let mut vars = Seq::new(Vec::new(alloc));
    push_zeros(alloc, 0, shape.vars.len(), &mut vars)?;
    let mut entry = Seq::new(Vec::new(alloc));
    push_zeros(alloc, 0, shape.entry.len(), &mut entry)?;
    let balances = level_balances(alloc, 0, shape.made.len())?;
    let shape = shape.copy(alloc)?;
    Ok(Scene {
        width: 0,
        shape,
        vars,
        returned: Form::zero(alloc, 0),
        entry,
        balances,
    })
}

/// Whether no two static objects are one.
fn statics_differ(alloc: Global, shape: &Shape) -> Result<bool, Memory>
    requires { AreTokens (length shape.now.made) shape.now }
    ensures { IfOk result (λ differ. differ ≡ statics_differ shape.now) }
{
    let numbering = Numbering::of_statics(alloc, shape)?;
    Ok(numbering.tokens.len() == shape.statics.len())
}

/// Whether a function that was called with these arguments may have left by an exit class.
pub(crate) fn may_leave(
    alloc: Global,
    exit: &Shape,
    atoms: &[Atom],
    shape: &Shape,
) -> Result<bool, Memory>
    requires exit { IsExitClass exit.now }
    requires shape { IsShape shape.now }
    ensures { IfOk result (λ may. may ≡ may_leave exit.now atoms.now (scene_of shape.now)) }
{
    if !are_alike(exit.entry.as_slice(), atoms, shape) {
        return Ok(false);
    }
    let pairs = arguments_of(alloc, exit, atoms)?;
    let mut scene = bare_scene(alloc, shape)?;
    join_all(alloc, pairs.as_slice(), &mut scene)?;
    let differ = statics_differ(alloc, &scene.shape)?;
    Ok(differ)
}
