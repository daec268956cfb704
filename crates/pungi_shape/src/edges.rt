ghost use Rattle.std.specs.Prelude.{◌≡◌, ◌≤◌, ◌<◌, ◌+◌, ◌^◌, ◌++◌, ◌∷◌, [], ℕ, Some, map, length, Err, IfOk, OnOk};
ghost use Rattle.std.specs.List.{All};
ghost use Rattle.pungi_shape.specs.declared.graph_fault.GraphFault.TheVariants.{Shapes};
ghost use Rattle.pungi_shape.specs.Bounds.{IsCodeOfFile, IsScene, IsShape};
ghost use Rattle.pungi_shape.specs.Edges.{edges_from, goes_by, frees_there, goes_to, edge_of, free_var, point_after};
ghost use Rattle.pungi_shape.specs.Live.{IsLiveness};
ghost use Rattle.pungi_shape.specs.Liveness.{instr_at};
ghost use Rattle.pungi_shape.specs.Parts.{maps};
ghost use Rattle.pungi_shape.specs.Places.{at_entry, at_point, entry_width, width_at};
ghost use Rattle.pungi_shape.specs.Reached.{HasWideGoal, IsReached, IsWideGoal, shape_at};
ghost use Rattle.pungi_shape.specs.Shapes.{width_of};

use crate::arrivals::arrive;
use crate::call_edges::comes_back_by;
use crate::entries::entry_scene;
use crate::exits::exits_from;
use crate::liveness::Liveness;
use crate::parts::maps;
use crate::shapes::count_of_numbers;
use crate::skips::{instr_at, part_done, settle, start_of};
use crate::steps::cases;
use crate::{
    Arrival, Case, Change, Edge, Form, Goal, GraphFault, Onward, Place, Point, Scene, Shape,
};
use pungi_base::{Memory, Seq};
use pungi_code::{Code, Instr};
use std::alloc::Global;

/// The most coordinates of a place.
pub(crate) const MOST_COORDINATES: usize = 256;

// ---- the edge of a case

/// The edge to a point, at which this is arrived at.
fn goes_by(
    alloc: Global,
    code: &Code,
    live: &Liveness,
    p: Point,
    guard: Seq<Form>,
    arrival: Arrival,
) -> Result<Edge, Memory>
    requires well_formed { IsCodeOfFile code.now }
    requires live { IsLiveness code.now live.now }
    requires shape { IsShape arrival.shape }
    requires vars { length arrival.shape.vars ≡ length code.now.vars }
    requires narrow { width_of arrival.shape ≤ 256 }
    ensures { IfOk result (λ e. e ≡ goes_by code.now p guard arrival) }
{
    let (shape, rows, drops) = arrival.into_parts();
    let place = settle(alloc, code, live, p, shape)?;
    Ok(Edge {
        goal: Goal::ToPlace(place),
        guard,
        change: Change::ByMap(rows),
        duties: drops,
    })
}

/// The edge to a point, at which this scene arrives, for the vectors for which these forms are 0.
pub(crate) fn goes_to(
    alloc: Global,
    code: &Code,
    live: &Liveness,
    p: Point,
    guard: Seq<Form>,
    scene: Scene,
) -> Result<Edge, GraphFault>
    requires well_formed { IsCodeOfFile code.now }
    requires live { IsLiveness code.now live.now }
    requires scene { IsScene scene }
    requires vars { length scene.shape.vars ≡ length code.now.vars }
    requires few { length scene.shape.made < 2 ^ 32 }
    ensures edge { IfOk result (λ e. e ≡ goes_to code.now p guard scene) }
    ensures wide { result ≡ Err Shapes → IsWideGoal (goes_to code.now p guard scene).goal }
{
    let arrival = arrive(alloc, code, live, p, scene)?;
    if arrival.rows.len() > MOST_COORDINATES {
        return Err(GraphFault::Shapes);
    }
    Ok(goes_by(alloc, code, live, p, guard, arrival)?)
}

/// Where the last map of an instruction leads: to the part that puts any number, or on.
fn point_after(code: &Code, live: &Liveness, p: Point, freed: Option<u32>, pc: u32) -> Point
    requires well_formed { IsCodeOfFile code.now }
    requires live { IsLiveness code.now live.now }
    requires part { p.done < 3 }
    requires freed { (x : ℕ) → freed ≡ Some x → x < length code.now.vars }
    ensures { result ≡ point_after code.now p freed pc }
{
    match freed {
        Some(x) if live.is_holder(code, part_done(p, p.class), x) => part_done(p, p.class),
        _ => start_of(pc),
    }
}

/// The edge of a case at a place.
fn edge_of(
    alloc: Global,
    code: &Code,
    live: &Liveness,
    p: Point,
    shape: &Shape,
    case: Case,
) -> Result<Edge, GraphFault>
    requires well_formed { IsCodeOfFile code.now }
    requires live { IsLiveness code.now live.now }
    requires part { p.done < 3 }
    requires shape { IsShape shape.now }
    requires narrow { width_of shape.now ≤ 256 }
    requires scene { IsScene case.scene }
    requires vars { length case.scene.shape.vars ≡ length code.now.vars }
    requires few { length case.scene.shape.made < 2 ^ 32 }
    requires freed { (x : ℕ) → case.freed ≡ Some x → x < length code.now.vars }
    ensures edge { IfOk result (λ e. e ≡ edge_of code.now p shape.now case) }
    ensures wide { result ≡ Err Shapes → IsWideGoal (edge_of code.now p shape.now case).goal }
{
    let (guard, scene, freed, onward) = case.into_parts();
    match onward {
        Onward::Within(k) => goes_to(alloc, code, live, part_done(p, k), guard, scene),
        Onward::LeadsTo(pc) => {
            let next = point_after(code, live, p, freed, pc);
            goes_to(alloc, code, live, next, guard, scene)
        }
        Onward::Leaves => Ok(exits_from(alloc, code, shape)?),
    }
}

/// Adds the edge of a case.
fn push_edge_of(
    alloc: Global,
    code: &Code,
    live: &Liveness,
    p: Point,
    shape: &Shape,
    case: Case,
    out: &mut Seq<Edge>,
) -> Result<(), GraphFault>
    requires well_formed { IsCodeOfFile code.now }
    requires live { IsLiveness code.now live.now }
    requires part { p.done < 3 }
    requires shape { IsShape shape.now }
    requires narrow { width_of shape.now ≤ 256 }
    requires scene { IsScene case.scene }
    requires vars { length case.scene.shape.vars ≡ length code.now.vars }
    requires few { length case.scene.shape.made < 2 ^ 32 }
    requires freed { (x : ℕ) → case.freed ≡ Some x → x < length code.now.vars }
    ensures edge { OnOk result (out.new ≡ out.old ++ edge_of code.now p shape.now case ∷ []) }
    ensures wide { result ≡ Err Shapes → IsWideGoal (edge_of code.now p shape.now case).goal }
{
    match edge_of(alloc, code, live, p, shape, case) {
        Ok(edge) => Ok(out.push(edge)?),
        Err(fault) => Err(fault),
    }
}

fn edges_of_cases(
    alloc: Global,
    code: &Code,
    live: &Liveness,
    p: Point,
    shape: &Shape,
    list: Seq<Case>,
    out: &mut Seq<Edge>,
) -> Result<(), GraphFault>
    requires well_formed { IsCodeOfFile code.now }
    requires live { IsLiveness code.now live.now }
    requires part { p.done < 3 }
    requires shape { IsShape shape.now }
    requires narrow { width_of shape.now ≤ 256 }
    requires scenes { All (λ c. IsScene c.scene) list }
    requires vars { All (λ c. length c.scene.shape.vars ≡ length code.now.vars) list }
    requires few { All (λ c. length c.scene.shape.made < 2 ^ 32) list }
    requires freed { All (λ c. (x : ℕ) → c.freed ≡ Some x → x < length code.now.vars) list }
    ensures edges { OnOk result (out.new ≡ out.old ++ map (edge_of code.now p shape.now) list) }
    ensures wide { result ≡ Err Shapes → HasWideGoal (map (edge_of code.now p shape.now) list) }
{
    for case in list.into_items() {
        match push_edge_of(alloc, code, live, p, shape, case, out) {
            Ok(()) => {}
            Err(fault) => return Err(fault),
        }
    }
    Ok(())
}

// ---- any number

/// The variable that gets any number in an instruction's last part.
fn free_var(instr: &Instr) -> u32
    ensures { result ≡ free_var instr.now }
{
    match instr {
        Instr::Arith(x, _, _, _, _) | Instr::Load(x, _) | Instr::Api(Some(x), _, _) => x.0,
        _ => 0,
    }
}

/// The edge that puts any number there, in the variable x.
fn frees_there(
    alloc: Global,
    code: &Code,
    live: &Liveness,
    p: Point,
    x: u32,
    shape: &Shape,
) -> Result<Edge, Memory>
    requires well_formed { IsCodeOfFile code.now }
    requires live { IsLiveness code.now live.now }
    requires next { p.instr + 1 < length code.now.instrs }
    requires variable { x ≡ free_var (instr_at code.now p.instr) }
    requires there { x ≤ length shape.now.vars }
    requires shape { IsShape shape.now }
    requires vars { length shape.now.vars ≡ length code.now.vars }
    requires narrow { width_of shape.now ≤ 256 }
    ensures { IfOk result (λ e. e ≡ frees_there code.now p shape.now) }
{
    let before = &shape.vars.as_slice()[..x as usize];
    let coordinate = 1 + count_of_numbers(before) as u32;
    let place = settle(alloc, code, live, start_of(p.instr + 1), shape.copy(alloc)?)?;
    Ok(Edge {
        goal: Goal::ToPlace(place),
        guard: Seq::new(Vec::new(alloc)),
        change: Change::ByAny(coordinate),
        duties: Seq::new(Vec::new(alloc)),
    })
}

// ---- the edges of a place

/// Adds the edges of a place at a point.
fn edges_at_point(
    alloc: Global,
    code: &Code,
    live: &Liveness,
    p: Point,
    shape: &Shape,
    out: &mut Seq<Edge>,
) -> Result<(), GraphFault>
    requires well_formed { IsCodeOfFile code.now }
    requires live { IsLiveness code.now live.now }
    requires reached { IsReached code.now (at_point p shape.now) }
    requires narrow { width_of shape.now ≤ 256 }
    ensures edges { OnOk result (out.new ≡ out.old ++ edges_from code.now (at_point p shape.now)) }
    ensures wide { result ≡ Err Shapes → HasWideGoal (edges_from code.now (at_point p shape.now)) }
{
    let Some(instr) = instr_at(code, p.instr) else {
        return Ok(());
    };
    if p.done == maps(instr) {
        return Ok(out.push(frees_there(alloc, code, live, p, free_var(instr), shape)?)?);
    }
    let scene = Scene::of(alloc, shape)?;
    let mut list = Seq::new(Vec::new(alloc));
    cases(alloc, instr, p.instr, p.done, p.class, scene, &mut list)?;
    edges_of_cases(alloc, code, live, p, shape, list, out)
}

/// Adds the edge of an entry.
fn edge_at_entry(
    alloc: Global,
    code: &Code,
    live: &Liveness,
    shape: &Shape,
    out: &mut Seq<Edge>,
) -> Result<(), GraphFault>
    requires well_formed { IsCodeOfFile code.now }
    requires live { IsLiveness code.now live.now }
    requires reached { IsReached code.now (at_entry shape.now) }
    requires narrow { entry_width shape.now ≤ 256 }
    requires few { length shape.now.made ≤ 2 ^ 31 }
    ensures edges { OnOk result (out.new ≡ out.old ++ edges_from code.now (at_entry shape.now)) }
    ensures wide { result ≡ Err Shapes → HasWideGoal (edges_from code.now (at_entry shape.now)) }
{
    let scene = entry_scene(alloc, shape)?;
    match goes_to(
        alloc,
        code,
        live,
        start_of(0),
        Seq::new(Vec::new(alloc)),
        scene,
    ) {
        Ok(edge) => Ok(out.push(edge)?),
        Err(fault) => Err(fault),
    }
}

/// Adds the edges of a place, without those that depend on another function. After an `Err` some of them may be there.
pub(crate) fn edges_from(
    alloc: Global,
    code: &Code,
    live: &Liveness,
    place: &Place,
    out: &mut Seq<Edge>,
) -> Result<(), GraphFault>
    requires well_formed { IsCodeOfFile code.now }
    requires live { IsLiveness code.now live.now }
    requires reached { IsReached code.now place.now }
    requires narrow { width_at place.now ≤ 256 }
    requires few { length (shape_at place.now).made ≤ 2 ^ 31 }
    ensures edges { OnOk result (out.new ≡ out.old ++ edges_from code.now place.now) }
    ensures wide { result ≡ Err Shapes → HasWideGoal (edges_from code.now place.now) }
{
    match place {
        Place::AtEntry(shape) => edge_at_entry(alloc, code, live, shape, out),
        Place::AtPoint(p, shape) => edges_at_point(alloc, code, live, *p, shape, out),
        Place::AfterCall(p, shape, exit) => {
            comes_back_by(alloc, code, live, p.instr, shape, exit, out)
        }
    }
}
