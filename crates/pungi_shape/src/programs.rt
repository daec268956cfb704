// The program of what was found: places and exit classes by their order, and the edges of each place in theirs.
ghost use Rattle.std.specs.Prelude.{◌≡◌, ◌<◌, ◌++◌, Some, length, map, slice_get, slice_set, IfOk};
ghost use Rattle.std.specs.Prelude.{[], OnOk};
ghost use Rattle.std.specs.List.{All, count_by, range_with_len};
ghost use Rattle.pungi_shape.specs.Forms.{factors};
ghost use Rattle.pungi_shape.specs.Keys.{order_of};
ghost use Rattle.pungi_shape.specs.RankedEdges.{CanAllBeRanked, IsRanked, action_by};
ghost use Rattle.pungi_shape.specs.RankedEdges.{list_at, ranked_at, ranked_edge, ranked_edges, ranked_goal};
ghost use Rattle.pungi_shape.specs.Ranks.{AreListed, AreNumbers, IsOrder, IsRankedBy, exits_in, places_in};
ghost use Rattle.pungi_shape.specs.Places.{width_at};
ghost use Rattle.pungi_shape.specs.Programs.{equations, is_entry, pos_of, program_of};
ghost use Rattle.pungi_shape.specs.Shapes.{width_of};

use crate::catalog::{Catalog, ranks};
use crate::edge_order::put_edge;
use crate::exit_widths::exit_width;
use crate::found_edge::{FoundChange, FoundEdge, FoundGoal};
use crate::search::Found;
use crate::widths::width_at;
use crate::{Form, Place, Shape};
use pungi_base::{Memory, Pos, Seq};
use pungi_code::Code;
use pungi_domain::{Action, AffineEdge, AffineProgram, Equation, Matrix, Target};
use std::alloc::Global;
use std::mem;

/// The order of what was found, and the rank of each in it.
#[derive(Drop)]
pub(crate) struct Ranked {
    order: Vec<u32>,
    ranks: Vec<u32>,
}

fn in_ranks<T: Drop>(alloc: Global, found: &Catalog<T>) -> Result<Ranked, Memory>
    requires { IsOrder (order_of found.now) }
    ensures { IfOk result (λ ranked. IsRankedBy found.now ranked) }
{
    let order = found.in_order(alloc)?;
    match ranks(alloc, order.as_slice()) {
        Ok(ranks) => Ok(Ranked { order, ranks }),
        Err(memory) => Err(memory),
    }
}

/// What is found, with its order.
#[derive(Clone, Copy)]
pub(crate) struct Numbers<'a> {
    found: &'a Found,
    places: &'a Ranked,
    exits: &'a Ranked,
}

// ---- edges

fn target(numbers: &Numbers<'_>, to: FoundGoal) -> Target
    requires { IsRanked numbers.now.places.now numbers.now.exits.now to }
    ensures { result ≡ ranked_goal numbers.now.places.now numbers.now.exits.now to }
{
    match to {
        FoundGoal::Place(k) => Target::Place(numbers.places.ranks[k as usize]),
        FoundGoal::Exit(k) => Target::Exit(numbers.exits.ranks[k as usize]),
    }
}

fn equations(alloc: Global, forms: &[Form]) -> Result<Seq<Equation>, Memory>
    ensures { IfOk result (λ list. list ≡ equations forms.now) }
{
    let mut list = Seq::new(Vec::new(alloc));
    for form in forms {
        list.push(Equation {
            coefficients: form.coefficients(alloc)?,
        })?;
    }
    Ok(list)
}

fn matrix(alloc: Global, rows: Seq<Form>) -> Result<Matrix, Memory>
    ensures { IfOk result (λ m. m.rows ≡ map factors rows) }
{
    let mut list = Seq::new(Vec::new(alloc));
    for row in rows.into_items() {
        list.push(row.into_factors())?;
    }
    Ok(Matrix { rows: list })
}

fn action(alloc: Global, change: FoundChange) -> Result<Action, Memory>
    ensures { IfOk result (λ a. a ≡ action_by change) }
{
    match change {
        FoundChange::ByMap(rows) => Ok(Action::Map(matrix(alloc, rows)?)),
        FoundChange::ByAny(coordinate) => Ok(Action::Free(coordinate)),
        FoundChange::ByExit(callee, class, onto) => Ok(Action::Call {
            callee,
            class,
            onto,
        }),
    }
}

/// An edge with ranks for its places, from this place.
fn with_ranks(
    alloc: Global,
    numbers: &Numbers<'_>,
    from: u32,
    edge: FoundEdge,
) -> Result<AffineEdge, Memory>
    requires { IsRanked numbers.now.places.now numbers.now.exits.now edge.to }
    ensures { IfOk result (λ e. e ≡ ranked_edge numbers.now.places.now numbers.now.exits.now from edge) }
{
    let to = target(numbers, edge.to);
    let guard = equations(alloc, edge.guard.as_slice())?;
    let duties = equations(alloc, edge.duties.as_slice())?;
    let action = action(alloc, edge.into_change())?;
    Ok(AffineEdge {
        from,
        to,
        guard,
        action,
        duties,
    })
}

/// Edges with ranks for their places, in order.
fn in_order(
    alloc: Global,
    numbers: &Numbers<'_>,
    from: u32,
    edges: Seq<FoundEdge>,
) -> Result<Vec<AffineEdge>, Memory>
    requires { All (λ d. IsRanked numbers.now.places.now numbers.now.exits.now d.to) edges }
    ensures { IfOk result (λ list. list.items
        ≡ ranked_at numbers.now.places.now numbers.now.exits.now from edges) }
{
    let mut edges = edges;
    let mut list = Vec::new(alloc);
    while let Some(edge) = edges.pop() {
        put_edge(&mut list, with_ranks(alloc, numbers, from, edge)?)?;
    }
    Ok(list)
}

/// Adds edges at the end.
fn push_all(list: Vec<AffineEdge>, out: &mut Seq<AffineEdge>) -> Result<(), Memory>
    ensures { OnOk result (out.new ≡ out.old ++ list.items) }
{
    for edge in list {
        out.push(edge)?;
    }
    Ok(())
}

/// Adds the edges of a place, which has this rank.
fn put_edges_of(
    alloc: Global,
    numbers: &Numbers<'_>,
    from: u32,
    edges: Seq<FoundEdge>,
    out: &mut Seq<AffineEdge>,
) -> Result<(), Memory>
    requires { All (λ d. IsRanked numbers.now.places.now numbers.now.exits.now d.to) edges }
    ensures { OnOk result (out.new ≡ out.old
        ++ ranked_at numbers.now.places.now numbers.now.exits.now from edges) }
{
    let list = in_order(alloc, numbers, from, edges)?;
    push_all(list, out)
}

/// The edges of the place that has this number in the order in which places were found, taken out.
fn take_edges(alloc: Global, lists: &mut Vec<Seq<FoundEdge>>, number: usize) -> Seq<FoundEdge>
    requires { number < length lists.old.items }
    ensures edges { result ≡ list_at lists.old.items number }
    ensures rest { lists.new.items ≡ slice_set lists.old.items number [] }
{
    mem::replace(&mut lists[number], Seq::new(Vec::new(alloc)))
}

// ---- the program

fn pos_of(code: &Code, place: &Place) -> Pos
    ensures { result ≡ pos_of code.now place.now }
{
    let instr = match place {
        Place::AtEntry(_) => 0,
        Place::AtPoint(p, _) | Place::AfterCall(p, _, _) => p.instr,
    };
    match code.instrs.as_slice().get(instr as usize) {
        Some(line) => line.pos,
        None => Pos { line: 0, col: 0 },
    }
}

fn is_entry(place: &Place) -> bool
    ensures { result ≡ is_entry place.now }
{
    matches!(place, Place::AtEntry(_))
}

/// The place that has this number.
fn place_at<'a>(numbers: &Numbers<'a>, k: usize) -> &'a Place
    requires numbers { AreNumbers numbers.now.found.now numbers.now.places.now numbers.now.exits.now }
    requires there { k < length numbers.now.places.now.order.items }
    ensures { slice_get (places_in numbers.now.found.now) k ≡ Some result.now }
{
    &numbers.found.places.items()[numbers.places.order[k] as usize]
}

fn widths(alloc: Global, numbers: &Numbers<'_>) -> Result<Seq<u32>, Memory>
    requires numbers { AreNumbers numbers.now.found.now numbers.now.places.now numbers.now.exits.now }
    ensures { IfOk result (λ widths. widths ≡ map width_at (places_in numbers.now.found.now)) }
{
    let mut widths = Seq::new(Vec::new(alloc));
    for k in 0..numbers.places.order.len() {
        widths.push(width_at(alloc, place_at(numbers, k))? as u32)?;
    }
    Ok(widths)
}

fn positions(alloc: Global, code: &Code, numbers: &Numbers<'_>) -> Result<Seq<Pos>, Memory>
    requires numbers { AreNumbers numbers.now.found.now numbers.now.places.now numbers.now.exits.now }
    ensures { IfOk result (λ at. at ≡ map (pos_of code.now) (places_in numbers.now.found.now)) }
{
    let mut at = Seq::new(Vec::new(alloc));
    for k in 0..numbers.places.order.len() {
        at.push(pos_of(code, place_at(numbers, k)))?;
    }
    Ok(at)
}

/// How many places stand at entries.
fn count_of_entries(numbers: &Numbers<'_>) -> u32
    requires numbers { AreNumbers numbers.now.found.now numbers.now.places.now numbers.now.exits.now }
    ensures { result ≡ count_by is_entry (places_in numbers.now.found.now) }
{
    let mut count = 0;
    for k in 0..numbers.places.order.len() {
        if is_entry(place_at(numbers, k)) {
            count += 1;
        }
    }
    count
}

/// The first numbers.
fn first_numbers(alloc: Global, count: u32) -> Result<Seq<u32>, Memory>
    ensures { IfOk result (λ list. list ≡ range_with_len 0 count) }
{
    let mut list = Seq::new(Vec::new(alloc));
    for k in 0..count {
        list.push(k)?;
    }
    Ok(list)
}

/// The edges of all places, taken out of the lists in which they were found.
fn edges(
    alloc: Global,
    numbers: &Numbers<'_>,
    lists: &mut Vec<Seq<FoundEdge>>,
) -> Result<Seq<AffineEdge>, Memory>
    requires { CanAllBeRanked numbers.now.places.now numbers.now.exits.now lists.old.items }
    ensures { IfOk result (λ edges. edges
        ≡ ranked_edges numbers.now.places.now numbers.now.exits.now lists.old.items) }
{
    let mut edges = Seq::new(Vec::new(alloc));
    for k in 0..numbers.places.order.len() {
        let list = take_edges(alloc, lists, numbers.places.order[k] as usize);
        put_edges_of(alloc, numbers, k as u32, list, &mut edges)?;
    }
    Ok(edges)
}

/// The exit class that has this number.
fn exit_at<'a>(numbers: &Numbers<'a>, k: usize) -> &'a Shape
    requires numbers { AreNumbers numbers.now.found.now numbers.now.places.now numbers.now.exits.now }
    requires there { k < length numbers.now.exits.now.order.items }
    ensures { slice_get (exits_in numbers.now.found.now) k ≡ Some result.now }
{
    &numbers.found.exits.items()[numbers.exits.order[k] as usize]
}

fn exit_widths(alloc: Global, numbers: &Numbers<'_>) -> Result<Seq<u32>, Memory>
    requires numbers { AreNumbers numbers.now.found.now numbers.now.places.now numbers.now.exits.now }
    ensures { IfOk result (λ widths. widths ≡ map width_of (exits_in numbers.now.found.now)) }
{
    let mut widths = Seq::new(Vec::new(alloc));
    for k in 0..numbers.exits.order.len() {
        widths.push(exit_width(alloc, exit_at(numbers, k))?)?;
    }
    Ok(widths)
}

/// The program, but for its edges.
fn program_without_edges(
    alloc: Global,
    code: &Code,
    numbers: &Numbers<'_>,
) -> Result<AffineProgram, Memory>
    requires numbers { AreNumbers numbers.now.found.now numbers.now.places.now numbers.now.exits.now }
    ensures { IfOk result (λ p. (others : _) → p ≡ record (program_of code.now others (places_in numbers.now.found.now)
        (exits_in numbers.now.found.now)) { edges = [] }) }
{
    let widths = widths(alloc, numbers)?;
    let at = positions(alloc, code, numbers)?;
    let exits = exit_widths(alloc, numbers)?;
    let entries = first_numbers(alloc, count_of_entries(numbers))?;
    Ok(AffineProgram {
        widths,
        at,
        exits,
        edges: Seq::new(Vec::new(alloc)),
        entries,
    })
}

fn program_with(
    alloc: Global,
    code: &Code,
    numbers: &Numbers<'_>,
    lists: &mut Vec<Seq<FoundEdge>>,
) -> Result<AffineProgram, Memory>
    requires numbers { AreNumbers numbers.now.found.now numbers.now.places.now numbers.now.exits.now }
    requires lists { (others : _) × AreListed code.now others numbers.now.found.now lists.old.items }
    ensures { IfOk result (λ p. (others : _) → AreListed code.now others numbers.now.found.now lists.old.items
        → p ≡ program_of code.now others (places_in numbers.now.found.now) (exits_in numbers.now.found.now)) }
{
    let edges = edges(alloc, numbers, lists)?;
    let program = program_without_edges(alloc, code, numbers)?;
    Ok(AffineProgram { edges, ..program })
}

/// The program of a code, of which this is found, with these edges of each place.
pub(crate) fn program(
    alloc: Global,
    code: &Code,
    found: &Found,
    lists: &mut Vec<Seq<FoundEdge>>,
) -> Result<AffineProgram, Memory>
    requires places { IsOrder (order_of found.now.places) }
    requires exits { IsOrder (order_of found.now.exits) }
    requires numbers { (pr er : _) → IsRankedBy found.now.places pr → IsRankedBy found.now.exits er
        → AreNumbers found.now pr er }
    requires lists { (others : _) × AreListed code.now others found.now lists.old.items }
    ensures { IfOk result (λ p. (others : _) → AreListed code.now others found.now lists.old.items
        → p ≡ program_of code.now others (places_in found.now) (exits_in found.now)) }
{
    let places = in_ranks(alloc, &found.places)?;
    let exits = in_ranks(alloc, &found.exits)?;
    let numbers = Numbers {
        found,
        places: &places,
        exits: &exits,
    };
    program_with(alloc, code, &numbers, lists)
}
