// The edges of calls of functions of the file.
ghost use Rattle.std.specs.Prelude.{◌≡◌, ◌≤◌, ◌<◌, ◌+◌, ◌^◌, ◌==◌, ◌&&◌, ◌++◌, ◌∷◌, [], true, length, Err, IfOk, OnOk};
ghost use Rattle.std.specs.List.{list_all, range_with_len};
ghost use Rattle.pungi_shape.specs.declared.graph_fault.GraphFault.TheVariants.{Shapes};
ghost use Rattle.pungi_shape.specs.Bounds.{IsCodeOfFile, IsShape, has_opposite};
ghost use Rattle.pungi_shape.specs.Edges.{both_shapes, call_edges, call_edges_by, comes_back_by, enters_exit};
ghost use Rattle.pungi_shape.specs.Exits.{may_leave};
ghost use Rattle.pungi_shape.specs.Leaving.{IsExitClass, comes_back};
ghost use Rattle.pungi_shape.specs.Live.{IsLiveness};
ghost use Rattle.pungi_shape.specs.Liveness.{instr_at};
ghost use Rattle.pungi_shape.specs.Reached.{HasWideGoal, IsWideGoal, shape_at};
ghost use Rattle.pungi_shape.specs.Scenes.{scene_of};
ghost use Rattle.pungi_shape.specs.Shapes.{width_of};

use crate::edges::goes_to;
use crate::exit_widths::exit_width;
use crate::joins::may_leave;
use crate::leaving::{after_leaving, agreement};
use crate::liveness::Liveness;
use crate::skips::{instr_at, part_done, start_of};
use crate::{Change, Edge, Goal, GraphFault, Place, Point, Scene, Shape};
use pungi_base::{Memory, Seq};
use pungi_code::{Atom, Code, Instr, Var};
use std::alloc::Global;

/// So many coordinates, from one on.
fn coordinates_from(alloc: Global, from: u32, count: u32) -> Result<Seq<u32>, Memory>
    requires { from + count < 2 ^ 32 }
    ensures { IfOk result (λ list. list ≡ range_with_len from count) }
{
    let mut list = Seq::new(Vec::with_capacity(alloc, count as usize)?);
    for k in from..from + count {
        list.push(k)?;
    }
    Ok(list)
}

/// The edge of a place by which a function is called and leaves by an exit class.
fn enters_exit(alloc: Global, p: Point, shape: &Shape, f: u32, exit: &Shape) -> Result<Edge, Memory>
    requires part { p.done < 3 }
    requires shape { IsShape shape.now }
    requires narrow { width_of shape.now ≤ 256 }
    requires exit { IsExitClass exit.now }
    ensures { IfOk result (λ e. e ≡ enters_exit p shape.now f exit.now) }
{
    let width = exit_width(alloc, exit)?;
    let onto = coordinates_from(alloc, shape.width() as u32, width)?;
    let class = exit.copy(alloc)?;
    let beside = exit.copy(alloc)?;
    let shape = shape.copy(alloc)?;
    let next = part_done(p, 0);
    let guard = Seq::new(Vec::new(alloc));
    let duties = Seq::new(Vec::new(alloc));
    Ok(Edge {
        goal: Goal::ToPlace(Place::AfterCall(next, shape, beside)),
        guard,
        change: Change::ByExit(f, class, onto),
        duties,
    })
}

/// Whether this function is called at a point, where that calls g, and may leave by an exit class.
fn may_call(
    alloc: Global,
    g: usize,
    atoms: &[Atom],
    p: Point,
    shape: &Shape,
    f: u32,
    exit: &Shape,
) -> Result<bool, Memory>
    requires shape { IsShape shape.now }
    requires exit { IsExitClass exit.now }
    ensures { IfOk result (λ may. may
        ≡ ((p.done == 1) && ((g == f) && may_leave exit.now atoms.now (scene_of shape.now)))) }
{
    if p.done != 1 {
        return Ok(false);
    }
    if g != f as usize {
        return Ok(false);
    }
    let may = may_leave(alloc, exit, atoms, shape)?;
    Ok(may)
}

/// Adds the edge by which this function is called at a point and leaves by an exit class, if it may.
fn call_edges_by(
    alloc: Global,
    instr: &Instr,
    p: Point,
    shape: &Shape,
    f: u32,
    exit: &Shape,
    out: &mut Seq<Edge>,
) -> Result<(), Memory>
    requires shape { IsShape shape.now }
    requires narrow { width_of shape.now ≤ 256 }
    requires exit { IsExitClass exit.now }
    ensures { OnOk result (out.new ≡ out.old ++ call_edges_by instr.now p shape.now f exit.now) }
{
    match instr {
        Instr::Call(_, g, atoms) => {
            if may_call(alloc, *g, atoms.as_slice(), p, shape, f, exit)? {
                out.push(enters_exit(alloc, p, shape, f, exit)?)?;
            }
            Ok(())
        }
        _ => Ok(()),
    }
}

/// Adds the edges of a place by which this function is called and leaves by an exit class.
pub(crate) fn call_edges(
    alloc: Global,
    code: &Code,
    place: &Place,
    f: u32,
    exit: &Shape,
    out: &mut Seq<Edge>,
) -> Result<(), Memory>
    requires shape { IsShape (shape_at place.now) }
    requires narrow { width_of (shape_at place.now) ≤ 256 }
    requires exit { IsExitClass exit.now }
    ensures { OnOk result (out.new ≡ out.old ++ call_edges code.now place.now f exit.now) }
{
    match place {
        Place::AtPoint(p, shape) => match instr_at(code, p.instr) {
            Some(instr) => call_edges_by(alloc, instr, *p, shape, f, exit, out),
            None => Ok(()),
        },
        Place::AtEntry(_) | Place::AfterCall(_, _, _) => Ok(()),
    }
}

/// The scene where a called function has left, in which the coordinates of its exit class stand last.
fn both_shapes(alloc: Global, shape: &Shape, exit: &Shape) -> Result<Scene, Memory>
    requires shape { IsShape shape.now }
    requires narrow { width_of shape.now ≤ 256 }
    requires exit { IsExitClass exit.now }
    ensures { IfOk result (λ scene. scene ≡ both_shapes shape.now exit.now) }
{
    let width = shape.width() as u32 + exit_width(alloc, exit)?;
    Scene::over(alloc, width, shape)
}

/// The edge that takes over what a called function left, to the point after the call.
fn comes_back(
    alloc: Global,
    code: &Code,
    live: &Liveness,
    x: Option<Var>,
    atoms: &[Atom],
    pc: u32,
    shape: &Shape,
    exit: &Shape,
) -> Result<Edge, GraphFault>
    requires well_formed { IsCodeOfFile code.now }
    requires live { IsLiveness code.now live.now }
    requires next { pc + 1 < 2 ^ 32 }
    requires opposites { list_all has_opposite atoms.now ≡ true }
    requires shape { IsShape shape.now }
    requires vars { length shape.now.vars ≡ length code.now.vars }
    requires narrow { width_of shape.now ≤ 256 }
    requires exit { IsExitClass exit.now }
    ensures edge { IfOk result (λ e. e ≡ comes_back code.now x atoms.now pc shape.now exit.now) }
    ensures wide { result ≡ Err Shapes
        → IsWideGoal (comes_back code.now x atoms.now pc shape.now exit.now).goal }
{
    let w = shape.width() as u32;
    let mut scene = both_shapes(alloc, shape, exit)?;
    let guard = agreement(alloc, w, exit, atoms, &scene)?;
    after_leaving(alloc, w, exit, x, atoms, &mut scene)?;
    goes_to(alloc, code, live, start_of(pc + 1), guard, scene)
}

/// Adds that edge of a call. After an `Err` it may be there.
fn push_comes_back(
    alloc: Global,
    code: &Code,
    live: &Liveness,
    x: Option<Var>,
    atoms: &[Atom],
    pc: u32,
    shape: &Shape,
    exit: &Shape,
    out: &mut Seq<Edge>,
) -> Result<(), GraphFault>
    requires well_formed { IsCodeOfFile code.now }
    requires live { IsLiveness code.now live.now }
    requires next { pc + 1 < 2 ^ 32 }
    requires opposites { list_all has_opposite atoms.now ≡ true }
    requires shape { IsShape shape.now }
    requires vars { length shape.now.vars ≡ length code.now.vars }
    requires narrow { width_of shape.now ≤ 256 }
    requires exit { IsExitClass exit.now }
    ensures edge { OnOk result (out.new
        ≡ out.old ++ comes_back code.now x atoms.now pc shape.now exit.now ∷ []) }
    ensures wide { result ≡ Err Shapes
        → IsWideGoal (comes_back code.now x atoms.now pc shape.now exit.now).goal }
{
    match comes_back(alloc, code, live, x, atoms, pc, shape, exit) {
        Ok(edge) => Ok(out.push(edge)?),
        Err(fault) => Err(fault),
    }
}

/// Adds the edge of a place where a called function has left by an exit class. After an `Err` it may be there.
pub(crate) fn comes_back_by(
    alloc: Global,
    code: &Code,
    live: &Liveness,
    pc: u32,
    shape: &Shape,
    exit: &Shape,
    out: &mut Seq<Edge>,
) -> Result<(), GraphFault>
    requires well_formed { IsCodeOfFile code.now }
    requires live { IsLiveness code.now live.now }
    requires shape { IsShape shape.now }
    requires vars { length shape.now.vars ≡ length code.now.vars }
    requires narrow { width_of shape.now ≤ 256 }
    requires exit { IsExitClass exit.now }
    ensures edges { OnOk result (out.new
        ≡ out.old ++ comes_back_by code.now (instr_at code.now pc) pc shape.now exit.now) }
    ensures wide { result ≡ Err Shapes
        → HasWideGoal (comes_back_by code.now (instr_at code.now pc) pc shape.now exit.now) }
{
    let Some(instr) = instr_at(code, pc) else {
        return Ok(());
    };
    match instr {
        Instr::Call(x, _, atoms) => {
            let atoms = atoms.as_slice();
            push_comes_back(alloc, code, live, *x, atoms, pc, shape, exit, out)
        }
        _ => Ok(()),
    }
}
