ghost use Rattle.std.specs.Prelude.{◌≡◌, ◌<◌, ◌^◌, ◌++◌, ◌∷◌, [], false, map, if◌then◌else◌, OnOk, OnErr};
ghost use Rattle.pungi_code.specs.WellFormed.{is_object, is_integer, place_kind};
ghost use Rattle.pungi_shape.specs.declared.holding.Holding.TheVariants.{Null, Text, Token};
ghost use Rattle.pungi_shape.specs.Bounds.{IsFresh, IsHeld, IsScene};
ghost use Rattle.pungi_shape.specs.Cases.{leads, passes_on};
ghost use Rattle.pungi_shape.specs.Forms.{zero_form};
ghost use Rattle.pungi_shape.specs.Scenes.{merge, new_token, with_token, with_var};
ghost use Rattle.pungi_shape.specs.Slots.{field_spot, spot_of, is_spot, slot_at, is_tracked, may_be, same_objects};
ghost use Rattle.pungi_shape.specs.Slots.{find_field, find_slot, track, is_of_made, first_contents, touch_at};
ghost use Rattle.pungi_shape.specs.Slots.{touch_first, place_of_slot, holding_in, load_of, load_cases, put_slot};
ghost use Rattle.pungi_shape.specs.Slots.{store_object, store_cases};

use crate::cases::{add_frees, add_leads, add_passes_on, add_same, add_with_zero};
use crate::comparisons::{are_apart, are_one_field};
use crate::{Case, Form, Holding, Scene, Shape, Spot, Tracked};
use pungi_api::Param;
use pungi_base::{Memory, Name, Seq};
use pungi_code::{Atom, Place};
use std::alloc::Global;

// ---- which slot it is

/// The kind of a slot.
fn place_kind(place: Place) -> Param
    ensures { result ≡ place_kind place }
{
    match place {
        Place::Global(_, kind) => kind,
        Place::Field(_, _, _, kind) => kind,
    }
}

/// Whether an object may be held.
pub(crate) fn is_object(kind: Param) -> bool
    ensures { result ≡ is_object kind }
{
    match kind {
        Param::ObjectOrNull => true,
        Param::Object
        | Param::Int
        | Param::Long
        | Param::Size
        | Param::Text
        | Param::TextOrNull
        | Param::ModuleDef => false,
    }
}

/// Whether an integer is held.
pub(crate) fn is_integer(kind: Param) -> bool
    ensures { result ≡ is_integer kind }
{
    match kind {
        Param::Int | Param::Long | Param::Size => true,
        Param::Object | Param::ObjectOrNull | Param::Text | Param::TextOrNull | Param::ModuleDef =>
            false,
    }
}

/// The slot that an instruction names, where its base is an object.
fn spot_of(scene: &Scene, place: Place) -> Option<Spot>
    ensures { result ≡ spot_of scene.now place }
{
    match place {
        Place::Global(name, _) => Some(Spot::Global(name)),
        Place::Field(base, tag, field, _) => field_spot(scene.holding_of(base), tag, field),
    }
}

fn field_spot(h: Holding, tag: Name, field: Name) -> Option<Spot>
    ensures { result ≡ field_spot h tag field }
{
    match h {
        Holding::Token(base) => Some(Spot::Field { base, tag, field }),
        Holding::Dead
        | Holding::Unset
        | Holding::Null
        | Holding::Text
        | Holding::Known(_)
        | Holding::Number => None,
    }
}

/// Whether two slots are one.
fn is_spot(p: Spot, q: Spot) -> bool
    ensures { result ≡ is_spot p q }
{
    match (p, q) {
        (Spot::Global(m), Spot::Global(n)) => m.0 == n.0,
        (
            Spot::Field {
                base,
                tag: _,
                field: _,
            },
            Spot::Field {
                base: other,
                tag: _,
                field: _,
            },
        ) => base == other && are_one_field(p, q),
        _ => false,
    }
}

/// The place of a slot among those that are tracked.
fn slot_at(shape: &Shape, p: Spot) -> Option<usize>
    ensures { result ≡ slot_at shape.now p }
{
    shape
        .slots
        .as_slice()
        .iter()
        .position(|r| is_spot(r.spot, p))
}

fn is_tracked(shape: &Shape, p: Spot) -> bool
    ensures { result ≡ is_tracked shape.now p }
{
    shape.slots.as_slice().iter().any(|r| is_spot(r.spot, p))
}

/// Whether the token `c` may be the object of `b`, reached through a field.
fn may_be(shape: &Shape, b: u32, tag: Name, field: Name, c: u32) -> bool
    ensures { result ≡ may_be shape.now b tag field c }
{
    c != b
        && (is_tracked(
            shape,
            Spot::Field {
                base: c,
                tag,
                field,
            },
        ) || shape.is_made(c))
        && !are_apart(shape, b, c)
}

/// Adds the case that two tokens are one object, which leads on.
fn add_merged(
    alloc: Global,
    b: u32,
    c: u32,
    scene: &Scene,
    out: &mut Seq<Case>,
) -> Result<(), Memory>
    requires scene { IsScene scene.now }
    requires fresh { IsFresh scene.now }
    requires first { b < new_token scene.now }
    requires second { c < new_token scene.now }
    ensures { OnOk result (out.new ≡ out.old ++ passes_on 0 (merge b c scene.now) ∷ []) }
{
    let mut after = scene.copy(alloc)?;
    after.merge(alloc, b, c)?;
    add_passes_on(alloc, 0, after, out)
}

/// Adds the case that nothing changes, which leads on.
fn add_unchanged(alloc: Global, scene: Scene, out: &mut Seq<Case>) -> Result<(), Memory>
    ensures { OnOk result (out.new ≡ out.old ++ passes_on 0 scene ∷ []) }
{
    add_passes_on(alloc, 0, scene, out)
}

/// Adds the case that the object of `b` is `c`, if it may be.
fn add_if_same(
    alloc: Global,
    b: u32,
    tag: Name,
    field: Name,
    c: u32,
    scene: &Scene,
    out: &mut Seq<Case>,
) -> Result<(), Memory>
    requires scene { IsScene scene.now }
    requires fresh { IsFresh scene.now }
    requires first { b < new_token scene.now }
    requires second { c < new_token scene.now }
    ensures { OnOk result (out.new ≡ out.old
        ++ (if may_be scene.now.shape b tag field c then passes_on 0 (merge b c scene.now) ∷ [] else [])) }
{
    if may_be(&scene.shape, b, tag, field, c) {
        add_merged(alloc, b, c, scene, out)
    } else {
        Ok(())
    }
}

/// Adds the cases that the object of `b` is one of those that it may be.
fn add_same_objects(
    alloc: Global,
    b: u32,
    tag: Name,
    field: Name,
    scene: &Scene,
    out: &mut Seq<Case>,
) -> Result<(), Memory>
    requires scene { IsScene scene.now }
    requires fresh { IsFresh scene.now }
    requires held { b < new_token scene.now }
    ensures { OnOk result (out.new ≡ out.old ++ map (λ c. passes_on 0 (merge b c scene.now))
        (same_objects scene.now.shape b tag field)) }
{
    for c in 0..scene.shape.made.len() as u32 {
        add_if_same(alloc, b, tag, field, c, scene, out)?;
    }
    Ok(())
}

/// Adds the cases of the first part of a load or a store: which slot it is.
pub(crate) fn find_cases(
    alloc: Global,
    place: Place,
    scene: Scene,
    out: &mut Seq<Case>,
) -> Result<(), Memory>
    requires scene { IsScene scene }
    requires fresh { IsFresh scene }
    ensures { OnOk result (out.new ≡ out.old ++ map (passes_on 0) (find_slot place scene)) }
{
    match place {
        Place::Global(_, _) => add_unchanged(alloc, scene, out),
        Place::Field(base, tag, field, _) => {
            find_field_cases(alloc, scene.holding_of(base), tag, field, scene, out)
        }
    }
}

/// Adds these cases for a field of what is held.
fn find_field_cases(
    alloc: Global,
    h: Holding,
    tag: Name,
    field: Name,
    scene: Scene,
    out: &mut Seq<Case>,
) -> Result<(), Memory>
    requires scene { IsScene scene }
    requires fresh { IsFresh scene }
    requires held { IsHeld scene h }
    ensures { OnOk result (out.new ≡ out.old ++ map (passes_on 0) (find_field h tag field scene)) }
{
    match h {
        Holding::Token(b) => {
            add_same_objects(alloc, b, tag, field, &scene, out)?;
            add_unchanged(alloc, scene, out)
        }
        Holding::Dead
        | Holding::Unset
        | Holding::Null
        | Holding::Text
        | Holding::Known(_)
        | Holding::Number => Ok(()),
    }
}

// ---- the first touch

/// A slot is tracked, and holds this.
fn track(scene: &mut Scene, spot: Spot, held: Holding) -> Result<(), Memory>
    ensures ok { OnOk result (scene.new ≡ track spot held scene.old) }
    ensures err { OnErr result (scene.new ≡ scene.old) }
{
    scene.shape.slots.push(Tracked { spot, held })
}

/// Adds the case that a slot is tracked from now on, and holds this.
fn add_tracked(
    alloc: Global,
    spot: Spot,
    held: Holding,
    scene: Scene,
    out: &mut Seq<Case>,
) -> Result<(), Memory>
    ensures { OnOk result (out.new ≡ out.old ++ passes_on 0 (track spot held scene) ∷ []) }
{
    let mut after = scene;
    track(&mut after, spot, held)?;
    add_passes_on(alloc, 0, after, out)
}

/// Adds the case that a slot is tracked from now on, and holds an object that is owed nothing.
fn add_tracked_object(
    alloc: Global,
    spot: Spot,
    scene: Scene,
    out: &mut Seq<Case>,
) -> Result<(), Memory>
    requires { new_token scene < 2 ^ 32 }
    ensures { OnOk result (out.new ≡ out.old ++ passes_on 0 (track spot (Token (new_token scene))
        (with_token (zero_form scene.width) false scene)) ∷ []) }
{
    let t = scene.new_token();
    let zero = Form::zero(alloc, scene.width);
    let mut after = scene;
    after.put_token(zero, false)?;
    track(&mut after, spot, Holding::Token(t))?;
    add_passes_on(alloc, 0, after, out)
}

/// Whether a slot is a field of an object that was made in this run.
fn is_of_made(shape: &Shape, p: Spot) -> bool
    ensures { result ≡ is_of_made shape.now p }
{
    match p {
        Spot::Global(_) => false,
        Spot::Field {
            base,
            tag: _,
            field: _,
        } => shape.is_made(base),
    }
}

/// Adds the cases of the first touch of a slot.
fn first_contents(alloc: Global, p: Spot, scene: Scene, out: &mut Seq<Case>) -> Result<(), Memory>
    requires { new_token scene < 2 ^ 32 }
    ensures { OnOk result (out.new ≡ out.old ++ map (passes_on 0) (first_contents p scene)) }
{
    if is_of_made(&scene.shape, p) {
        return add_tracked(alloc, p, Holding::Unset, scene, out);
    }
    add_tracked(alloc, p, Holding::Null, scene.copy(alloc)?, out)?;
    add_tracked_object(alloc, p, scene, out)
}

fn touch_at(
    alloc: Global,
    spot: Option<Spot>,
    scene: Scene,
    out: &mut Seq<Case>,
) -> Result<(), Memory>
    requires { new_token scene < 2 ^ 32 }
    ensures { OnOk result (out.new ≡ out.old ++ map (passes_on 0) (touch_at spot scene)) }
{
    match spot {
        None => Ok(()),
        Some(p) if is_tracked(&scene.shape, p) => add_unchanged(alloc, scene, out),
        Some(p) => first_contents(alloc, p, scene, out),
    }
}

/// Adds the cases of the second part of a load or a store: the first touch of the slot.
pub(crate) fn touch_cases(
    alloc: Global,
    place: Place,
    scene: Scene,
    out: &mut Seq<Case>,
) -> Result<(), Memory>
    requires { new_token scene < 2 ^ 32 }
    ensures { OnOk result (out.new ≡ out.old ++ map (passes_on 0) (touch_first place scene)) }
{
    if is_object(place_kind(place)) {
        touch_at(alloc, spot_of(&scene, place), scene, out)
    } else {
        add_unchanged(alloc, scene, out)
    }
}

// ---- loads and stores

/// The place of a slot among those that are tracked.
fn place_of_slot(scene: &Scene, place: Place) -> Option<usize>
    ensures { result ≡ place_of_slot scene.now.shape (spot_of scene.now place) }
{
    slot_at(&scene.shape, spot_of(scene, place)?)
}

/// What the slot at a place holds.
fn holding_in(shape: &Shape, i: Option<usize>) -> Holding
    ensures { result ≡ holding_in shape.now i }
{
    let slots = shape.slots.as_slice();
    match i {
        Some(i) if i < slots.len() => slots[i].held,
        _ => Holding::Unset,
    }
}

/// Adds the case of a load of an object that a slot holds.
fn load_of(
    alloc: Global,
    x: u32,
    h: Holding,
    pc: u32,
    scene: Scene,
    out: &mut Seq<Case>,
) -> Result<(), Memory>
    ensures { OnOk result (out.new ≡ out.old ++ load_of x h pc scene) }
{
    match h {
        Holding::Dead | Holding::Unset => Ok(()),
        Holding::Null | Holding::Text | Holding::Known(_) | Holding::Number | Holding::Token(_) =>
            add_with_zero(alloc, x, h, pc, scene, out),
    }
}

/// Adds the cases of a load of a text.
fn load_text(
    alloc: Global,
    x: u32,
    pc: u32,
    scene: Scene,
    out: &mut Seq<Case>,
) -> Result<(), Memory>
    ensures { OnOk result (out.new ≡ out.old ++ leads pc (with_var x Null (zero_form scene.width) scene)
        ∷ leads pc (with_var x Text (zero_form scene.width) scene) ∷ []) }
{
    add_with_zero(alloc, x, Holding::Null, pc, scene.copy(alloc)?, out)?;
    add_with_zero(alloc, x, Holding::Text, pc, scene, out)
}

/// Adds the cases of a load.
pub(crate) fn load_cases(
    alloc: Global,
    x: u32,
    place: Place,
    pc: u32,
    scene: Scene,
    out: &mut Seq<Case>,
) -> Result<(), Memory>
    ensures { OnOk result (out.new ≡ out.old ++ load_cases x place pc scene) }
{
    let kind = place_kind(place);
    if is_object(kind) {
        let h = holding_in(&scene.shape, place_of_slot(&scene, place));
        load_of(alloc, x, h, pc, scene, out)
    } else if is_integer(kind) {
        add_frees(alloc, x, Holding::Number, pc, scene, out)
    } else {
        load_text(alloc, x, pc, scene, out)
    }
}

/// The slot at a place holds something else.
fn put_slot(scene: &mut Scene, h: Holding, i: Option<usize>)
    ensures { scene.new ≡ put_slot h i scene.old }
{
    let Some(i) = i else {
        return;
    };
    let slots = scene.shape.slots.as_slice();
    if i < slots.len() {
        let spot = slots[i].spot;
        scene.shape.slots.set(i, Tracked { spot, held: h });
    }
}

/// What is stored escapes, and what the slot held escapes no longer.
fn store_object(alloc: Global, scene: &mut Scene, h: Holding, place: Place) -> Result<(), Memory>
    requires scene { IsScene scene.old }
    requires fresh { IsFresh scene.old }
    ensures { OnOk result (scene.new ≡ store_object h place scene.old) }
{
    let i = place_of_slot(scene, place);
    let held = holding_in(&scene.shape, i);
    scene.add_to_holding(alloc, held, 1)?;
    scene.add_to_holding(alloc, h, -1)?;
    put_slot(scene, h, i);
    Ok(())
}

/// Adds the case of a store of an object.
fn add_store(
    alloc: Global,
    h: Holding,
    place: Place,
    pc: u32,
    scene: Scene,
    out: &mut Seq<Case>,
) -> Result<(), Memory>
    requires scene { IsScene scene }
    requires fresh { IsFresh scene }
    ensures { OnOk result (out.new ≡ out.old ++ leads pc (store_object h place scene) ∷ []) }
{
    let mut after = scene;
    store_object(alloc, &mut after, h, place)?;
    add_leads(alloc, pc, after, out)
}

/// Adds the case of a store.
pub(crate) fn store_cases(
    alloc: Global,
    place: Place,
    a: Atom,
    pc: u32,
    scene: Scene,
    out: &mut Seq<Case>,
) -> Result<(), Memory>
    requires scene { IsScene scene }
    requires fresh { IsFresh scene }
    ensures { OnOk result (out.new ≡ out.old ++ store_cases place a pc scene) }
{
    if is_object(place_kind(place)) {
        add_store(alloc, scene.holding_of(a), place, pc, scene, out)
    } else {
        add_same(alloc, pc, scene, out)
    }
}
