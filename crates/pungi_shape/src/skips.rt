// Parts of instructions that are left out: those before the last that have one case and change nothing.
ghost use Rattle.std.specs.Prelude.{◌≡◌, ◌≢◌, ◌≤◌, ◌<◌, ◌+◌, ◌^◌, ◌∷◌, [], true, length, slice_get, Some, None, IfOk};
ghost use Rattle.std.specs.Prelude.{IfNone, IfSome, MatchOption};
ghost use Rattle.std.specs.List.{All};
ghost use Rattle.std.specs.Ordering.{int_cmp, is_eq};
ghost use Rattle.std.specs.Cmp.Lexicographic.{slice_cmp};
ghost use Rattle.pungi_code.specs.declared.instr.Instr.TheVariants.{Fall};
ghost use Rattle.pungi_shape.specs.Arrivals.{arrive};
ghost use Rattle.pungi_shape.specs.Bounds.{HasWidth, IsCodeOfFile, IsScene, IsShape};
ghost use Rattle.pungi_shape.specs.Edges.{cases_at, changes_nothing, part_done, point_of, settle, skip, skip_one};
ghost use Rattle.pungi_shape.specs.Edges.{skip_to, skip_within, units};
ghost use Rattle.pungi_shape.specs.Live.{IsLiveness};
ghost use Rattle.pungi_shape.specs.Liveness.{instr_at};
ghost use Rattle.pungi_shape.specs.Parts.{maps};
ghost use Rattle.pungi_shape.specs.Places.{at_point};
ghost use Rattle.pungi_shape.specs.Reached.{IsArrival, place_or};
ghost use Rattle.pungi_shape.specs.Shapes.{width_of};

use crate::arrivals::arrive;
use crate::keys::have_same_numbers;
use crate::liveness::Liveness;
use crate::steps::cases;
use crate::{Arrival, Case, Form, Onward, Place, Point, Scene, Shape};
use pungi_base::{Memory, Seq};
use pungi_code::{Code, Instr};
use std::alloc::Global;

/// The instruction at a place of a code, if there is one.
pub(crate) fn instr_at(code: &Code, pc: u32) -> Option<&Instr>
    ensures { MatchOption result (instr_at code.now pc ≡ Fall)
        (λ i. (i.now ≡ instr_at code.now pc) × (pc < length code.now.instrs)) }
{
    match code.instrs.as_slice().get(pc as usize) {
        Some(line) => Some(&line.instr),
        None => None,
    }
}

/// The point before the first part of an instruction.
pub(crate) fn start_of(instr: u32) -> Point
    ensures { result ≡ point_of instr 0 0 }
{
    Point {
        instr,
        done: 0,
        class: 0,
    }
}

/// The point after one more part, with this outcome.
pub(crate) fn part_done(p: Point, class: u32) -> Point
    requires { p.done < 3 }
    ensures { result ≡ part_done p class }
{
    Point {
        instr: p.instr,
        done: p.done + 1,
        class,
    }
}

/// Whether these forms are those of all coordinates.
fn are_units(rows: &[Form], width: usize) -> bool
    requires widths { All (HasWidth width) rows.now }
    requires narrow { width ≤ 256 }
    ensures { result ≡ is_eq (slice_cmp (slice_cmp int_cmp) rows.now (units width)) }
{
    if rows.len() != width {
        return false;
    }
    for (k, row) in rows.iter().enumerate() {
        if !row.is_unit(k as u32) {
            return false;
        }
    }
    true
}

/// Whether a scene arrives at the same shape, with the same vectors, and drops nothing.
fn changes_nothing(alloc: Global, shape: &Shape, arrival: &Arrival) -> Result<bool, Memory>
    requires shape { IsShape shape.now }
    requires narrow { width_of shape.now ≤ 256 }
    requires arrival { IsArrival (width_of shape.now) arrival.now }
    ensures { IfOk result (λ b. b ≡ changes_nothing shape.now arrival.now) }
{
    if arrival.drops.len() != 0 {
        return Ok(false);
    }
    if !are_units(arrival.rows.as_slice(), shape.width()) {
        return Ok(false);
    }
    let same = have_same_numbers(alloc, &arrival.shape, shape)?;
    Ok(same)
}

/// Whether a part may be left out at all: it isn't the last one of its instruction.
fn may_skip(instr: &Instr, part: u32) -> bool
    ensures yes { result ≡ true → part < 2 }
    ensures no { part + 1 < maps instr.now → result ≡ true }
{
    match instr {
        Instr::Load(_, _) | Instr::Store(_, _) | Instr::Call(_, _, _) => part < 2,
        Instr::Api(_, _, _) | Instr::Return(_) => part < 1,
        _ => false,
    }
}

/// The next point and the shape at which this scene arrives there, where that changes nothing.
fn skipped_to(
    alloc: Global,
    code: &Code,
    live: &Liveness,
    p: Point,
    shape: &Shape,
    next: Point,
    scene: Scene,
) -> Result<Option<(Point, Shape)>, Memory>
    requires well_formed { IsCodeOfFile code.now }
    requires live { IsLiveness code.now live.now }
    requires shape { IsShape shape.now }
    requires narrow { width_of shape.now ≤ 256 }
    requires scene { IsScene scene }
    requires width { scene.width ≡ width_of shape.now }
    requires vars { length scene.shape.vars ≡ length code.now.vars }
    requires few { length scene.shape.made < 2 ^ 32 }
    ensures { IfOk result (λ o. place_or (at_point p shape.now) o
        ≡ skip_to (at_point p shape.now) next shape.now (arrive code.now next scene)) }
{
    let arrival = arrive(alloc, code, live, next, scene)?;
    match changes_nothing(alloc, shape, &arrival) {
        Ok(true) => Ok(Some((next, arrival.into_shape()))),
        Ok(false) => Ok(None),
        Err(memory) => Err(memory),
    }
}

/// The point and the shape after a part with this case alone, where it is left out.
fn skipped_within(
    alloc: Global,
    code: &Code,
    live: &Liveness,
    p: Point,
    shape: &Shape,
    case: Case,
) -> Result<Option<(Point, Shape)>, Memory>
    requires well_formed { IsCodeOfFile code.now }
    requires live { IsLiveness code.now live.now }
    requires part { p.done < 3 }
    requires shape { IsShape shape.now }
    requires narrow { width_of shape.now ≤ 256 }
    requires scene { IsScene case.scene }
    requires width { case.scene.width ≡ width_of shape.now }
    requires vars { length case.scene.shape.vars ≡ length code.now.vars }
    requires few { length case.scene.shape.made < 2 ^ 32 }
    ensures { IfOk result (λ o. place_or (at_point p shape.now) o
        ≡ skip_within code.now p shape.now case case.onward) }
{
    let (_, scene, _, onward) = case.into_parts();
    match onward {
        Onward::Within(k) => skipped_to(alloc, code, live, p, shape, part_done(p, k), scene),
        Onward::LeadsTo(_) => Ok(None),
        Onward::Leaves => Ok(None),
    }
}

/// The point and the shape after a part with these cases, where it is left out.
fn skipped_by(
    alloc: Global,
    code: &Code,
    live: &Liveness,
    p: Point,
    shape: &Shape,
    list: Seq<Case>,
) -> Result<Option<(Point, Shape)>, Memory>
    requires well_formed { IsCodeOfFile code.now }
    requires live { IsLiveness code.now live.now }
    requires part { p.done < 3 }
    requires shape { IsShape shape.now }
    requires narrow { width_of shape.now ≤ 256 }
    requires scenes { All (λ c. IsScene c.scene) list }
    requires widths { All (λ c. c.scene.width ≡ width_of shape.now) list }
    requires vars { All (λ c. length c.scene.shape.vars ≡ length code.now.vars) list }
    requires few { All (λ c. length c.scene.shape.made < 2 ^ 32) list }
    ensures { IfOk result (λ o. place_or (at_point p shape.now) o ≡ skip_one code.now p shape.now list) }
{
    match only_case(list) {
        Some(case) => skipped_within(alloc, code, live, p, shape, case),
        None => Ok(None),
    }
}

/// The case, where there is one alone.
fn only_case(list: Seq<Case>) -> Option<Case>
    ensures one { IfSome result (λ case. list ≡ case ∷ []) }
    ensures other { IfNone result (length list ≢ 1) }
{
    let mut list = list;
    if list.len() == 1 { list.pop() } else { None }
}

/// The point and the shape after the next part, where it is left out.
fn skipped(
    alloc: Global,
    code: &Code,
    live: &Liveness,
    p: Point,
    shape: &Shape,
) -> Result<Option<(Point, Shape)>, Memory>
    requires well_formed { IsCodeOfFile code.now }
    requires live { IsLiveness code.now live.now }
    requires shape { IsShape shape.now }
    requires vars { length shape.now.vars ≡ length code.now.vars }
    requires narrow { width_of shape.now ≤ 256 }
    ensures { IfOk result (λ o. place_or (at_point p shape.now) o ≡ skip code.now (at_point p shape.now)) }
{
    let Some(instr) = instr_at(code, p.instr) else {
        return Ok(None);
    };
    if !may_skip(instr, p.done) {
        return Ok(None);
    }
    let scene = Scene::of(alloc, shape)?;
    let mut list = Seq::new(Vec::new(alloc));
    cases(alloc, instr, p.instr, p.done, p.class, scene, &mut list)?;
    skipped_by(alloc, code, live, p, shape, list)
}

/// The point and the shape after the next part, where it is left out, and else these.
fn skip(
    alloc: Global,
    code: &Code,
    live: &Liveness,
    p: Point,
    shape: Shape,
) -> Result<(Point, Shape), Memory>
    requires well_formed { IsCodeOfFile code.now }
    requires live { IsLiveness code.now live.now }
    requires shape { IsShape shape }
    requires vars { length shape.vars ≡ length code.now.vars }
    requires narrow { width_of shape ≤ 256 }
    ensures place { IfOk result (λ r. at_point r.0 r.1 ≡ skip code.now (at_point p shape)) }
    ensures shape { IfOk result (λ r. IsShape r.1) }
    ensures vars { IfOk result (λ r. length r.1.vars ≡ length code.now.vars) }
    ensures narrow { IfOk result (λ r. width_of r.1 ≤ 256) }
{
    match skipped(alloc, code, live, p, &shape) {
        Ok(Some(next)) => Ok(next),
        Ok(None) => Ok((p, shape)),
        Err(memory) => Err(memory),
    }
}

/// The place after all next parts that are left out. At most two aren't the last.
pub(crate) fn settle(
    alloc: Global,
    code: &Code,
    live: &Liveness,
    p: Point,
    shape: Shape,
) -> Result<Place, Memory>
    requires well_formed { IsCodeOfFile code.now }
    requires live { IsLiveness code.now live.now }
    requires shape { IsShape shape }
    requires vars { length shape.vars ≡ length code.now.vars }
    requires narrow { width_of shape ≤ 256 }
    ensures { IfOk result (λ place. place ≡ settle code.now (at_point p shape)) }
{
    let (next, shape) = skip(alloc, code, live, p, shape)?;
    let (last, shape) = skip(alloc, code, live, next, shape)?;
    Ok(Place::AtPoint(last, shape))
}
