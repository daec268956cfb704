// The places and exit classes of a program, found from its entries, and the edges of the places.
ghost use Rattle.std.specs.Prelude.{◌≡◌, ◌<◌, ◌≤◌, ◌^◌, ◌+◌, ◌-◌, Some, Err, true, false, IfOk, MatchOption, OnOk};
ghost use Rattle.std.specs.Prelude.{◌++◌, ◌∷◌, [], length, map, slice_get};
ghost use Rattle.std.specs.List.{All};
ghost use Rattle.pungi_code.specs.Run.{code_at};
ghost use Rattle.pungi_shape.specs.declared.graph_fault.GraphFault.TheVariants.{Shapes};
ghost use Rattle.pungi_shape.specs.Bounds.{AreTokens, IsCodeOfFile};
ghost use Rattle.pungi_shape.specs.Classes.{AreClassLists, AreClasses, classes_of};
ghost use Rattle.pungi_shape.specs.Edges.{edges_from};
ghost use Rattle.pungi_shape.specs.Found.{CanBeLeftAlone, CanBeNoted, CanBeVisited, CanCall, CallsAt, HasFewExits};
ghost use Rattle.pungi_shape.specs.Found.{IsOwnOver, IsPlain, IsVisitOver, IsWhole, calls_of, goals_of_calls};
ghost use Rattle.pungi_shape.specs.Found.{is_over, are_over, is_place_over, goals_from, own_goals};
ghost use Rattle.pungi_shape.specs.Found.{entry_goal, entry_goals, with_exit, with_goal, with_goals, with_place};
ghost use Rattle.pungi_shape.specs.FoundBy.{IsLargeBy};
ghost use Rattle.pungi_shape.specs.FoundEdges.{AreEdgesOf, IsClassNumber, found_edge, found_edges, found_goal};
ghost use Rattle.pungi_shape.specs.Keys.{IsCatalog, key_of, place_of};
ghost use Rattle.pungi_shape.specs.Live.{IsLiveness};
ghost use Rattle.pungi_shape.specs.Named.{statics_of};
ghost use Rattle.pungi_shape.specs.Places.{Place, at_entry, entry_shape, width_at};
ghost use Rattle.pungi_shape.specs.Programs.{Rises, all_edges, calls_from, exit_cmp};
ghost use Rattle.pungi_shape.specs.Ranks.{exits_in};
ghost use Rattle.pungi_shape.specs.Reached.{shape_at};
ghost use Rattle.pungi_shape.specs.Shapes.{numbers_of_shape, tokens_in};

use crate::call_edges::call_edges;
use crate::catalog::Catalog;
use crate::classes::Classes;
use crate::edges::edges_from;
use crate::entries::entry_shape;
use crate::found_edge::{FoundChange, FoundEdge, FoundGoal};
use crate::keys::{key_of, key_of_exit};
use crate::liveness::Liveness;
use crate::skips::instr_at;
use crate::slots::{is_integer, is_object};
use crate::widths::is_narrow_at;
use crate::{Edge, Goal, GraphFault, Holding, Place, Shape};
use pungi_base::{Memory, Seq};
use pungi_code::{Code, Codes, Instr};
use std::alloc::Global;

/// The most places of a program.
const MOST_PLACES: usize = 8_192;

/// What is found of a program.
#[derive(Drop)]
pub(crate) struct Found {
    pub(crate) places: Catalog<Place>,
    pub(crate) exits: Catalog<Shape>,
}

/// What is found, with the edges of each place, in the order in which the places were found.
#[derive(Drop)]
pub(crate) struct FoundGraph {
    pub(crate) found: Found,
    pub(crate) edges: Vec<Seq<FoundEdge>>,
}

// ---- what is noted

/// The function that is called at a place, if one is.
fn callee_at(code: &Code, place: &Place) -> Option<u32>
    ensures { MatchOption result
        ((others : _) → AreClassLists others → calls_from code.now others place.now ≡ [])
        (λ g. CallsAt code.now place.now g) }
{
    match place {
        Place::AtPoint(p, _) => match instr_at(code, p.instr) {
            Some(Instr::Call(_, g, _)) if *g <= u32::MAX as usize => Some(*g as u32),
            _ => None,
        },
        Place::AtEntry(_) | Place::AfterCall(_, _, _) => None,
    }
}

/// Notes a place, unless it was found before, and gives its number.
fn find_place(alloc: Global, places: &mut Catalog<Place>, place: Place) -> Result<u32, GraphFault>
    requires plain { IsPlain place }
    requires tokens { width_at place ≤ 256 → AreTokens (2 ^ 31) (shape_at place) }
    ensures noted { OnOk result (places.new ≡ with_place place places.old) }
    ensures number { IfOk result (λ k. place_of (key_of place) places.new ≡ Some k) }
    ensures fits { OnOk result (is_place_over place places.old ≡ false) }
    ensures over { result ≡ Err Shapes → is_place_over place places.old ≡ true }
{
    if !is_narrow_at(alloc, &place)? {
        return Err(GraphFault::Shapes);
    }
    let key = key_of(alloc, &place)?;
    if let Some(k) = places.find(key.as_slice()) {
        return Ok(k);
    }
    if places.items().len() >= MOST_PLACES {
        return Err(GraphFault::Shapes);
    }
    Ok(places.add(key, place)?)
}

/// Notes an exit class, unless it was found before, and gives its number.
fn find_exit(alloc: Global, exits: &mut Catalog<Shape>, exit: Shape) -> Result<u32, Memory>
    requires tokens { AreTokens (2 ^ 31) exit }
    requires few { length exits.old.items < 65536 }
    ensures noted { OnOk result (exits.new ≡ with_exit exit exits.old) }
    ensures number { IfOk result (λ k. place_of (numbers_of_shape exit) exits.new ≡ Some k) }
{
    let key = key_of_exit(alloc, &exit)?;
    if let Some(k) = exits.find(key.as_slice()) {
        return Ok(k);
    }
    Ok(exits.add(key, exit)?)
}

impl Found {
    /// Notes where an edge leads, unless it was found before, and gives its number.
    fn find_goal(&mut self, alloc: Global, goal: Goal) -> Result<FoundGoal, GraphFault>
        requires can { CanBeNoted goal }
        requires few { length self.old.exits.items < 65536 }
        ensures noted { OnOk result (self.new ≡ with_goal goal self.old) }
        ensures number { IfOk result (λ to. to ≡ found_goal self.new goal) }
        ensures fits { OnOk result (is_over goal self.old ≡ false) }
        ensures over { result ≡ Err Shapes → is_over goal self.old ≡ true }
    {
        match goal {
            Goal::ToPlace(place) => {
                let k = find_place(alloc, &mut self.places, place)?;
                Ok(FoundGoal::Place(k))
            }
            Goal::ToExit(exit) => {
                let k = find_exit(alloc, &mut self.exits, exit)?;
                Ok(FoundGoal::Exit(k))
            }
        }
    }

    /// The exit classes, in the order of their numbers.
    pub(crate) fn exits_in_order(&self, alloc: Global) -> Result<Seq<Shape>, Memory>
        requires { IsCatalog numbers_of_shape self.now.exits }
        ensures { IfOk result (λ list. list ≡ exits_in self.now) }
    {
        let order = self.exits.in_order(alloc)?;
        let mut list = Seq::new(Vec::new(alloc));
        for k in 0..order.len() {
            list.push(self.exits.items()[order[k] as usize].copy(alloc)?)?;
        }
        Ok(list)
    }

    /// Notes where an edge leads, and gives the edge with the number of that. Where a function left, it left by the
    /// exit class of this number.
    fn keep_edge(&mut self, alloc: Global, edge: Edge, class: u32) -> Result<FoundEdge, GraphFault>
        requires can { CanBeNoted edge.goal }
        requires few { length self.old.exits.items < 65536 }
        ensures noted { OnOk result (self.new ≡ with_goal edge.goal self.old) }
        ensures edge { IfOk result (λ found. (others : _) → IsClassNumber others edge.change class
            → found ≡ found_edge others self.new edge) }
        ensures fits { OnOk result (is_over edge.goal self.old ≡ false) }
        ensures over { result ≡ Err Shapes → is_over edge.goal self.old ≡ true }
    {
        let (goal, guard, change, duties) = edge.into_parts();
        let to = self.find_goal(alloc, goal)?;
        Ok(FoundEdge {
            to,
            guard,
            change: FoundChange::of(change, class),
            duties,
        })
    }

    /// Notes where these edges lead, one after the other, and adds the edges with the numbers of that. Where a function
    /// left, it left by the exit class of this number.
    fn keep_edges(
        &mut self,
        alloc: Global,
        edges: Seq<Edge>,
        class: u32,
        list: &mut Seq<FoundEdge>,
    ) -> Result<(), GraphFault>
        requires can { All CanBeNoted (map (λ e. e.goal) edges) }
        requires few { HasFewExits (map (λ e. e.goal) edges) self.old }
        ensures noted { OnOk result (self.new ≡ with_goals (map (λ e. e.goal) edges) self.old) }
        ensures edges { OnOk result ((others : _) → All (λ e. IsClassNumber others e.change class) edges
            → list.new ≡ list.old ++ found_edges others self.new edges) }
        ensures fits { OnOk result (are_over (map (λ e. e.goal) edges) self.old ≡ false) }
        ensures over { result ≡ Err Shapes → are_over (map (λ e. e.goal) edges) self.old ≡ true }
    {
        for edge in edges.into_items() {
            list.push(self.keep_edge(alloc, edge, class)?)?;
        }
        Ok(())
    }

    /// Notes where the edges lead by which the place at k calls a function that leaves by one of these exit classes,
    /// and adds them.
    fn visit_calls(
        &mut self,
        alloc: Global,
        code: &Code,
        g: u32,
        classes: &[Shape],
        k: usize,
        list: &mut Seq<FoundEdge>,
    ) -> Result<(), GraphFault>
        requires there { k < length self.old.places.items }
        requires place { (q : Place) → slice_get self.old.places.items k ≡ Some q
            → CanCall code.now g classes.now q self.old }
        requires few { length classes.now ≤ 8192 }
        requires rise { Rises exit_cmp classes.now }
        ensures noted { OnOk result ((q : Place) → slice_get self.old.places.items k ≡ Some q
            → self.new ≡ with_goals (goals_of_calls code.now q g classes.now) self.old) }
        ensures edges { OnOk result ((q : Place) → slice_get self.old.places.items k ≡ Some q
            → (others : _) → others g ≡ classes.now
            → list.new ≡ list.old ++ found_edges others self.new (calls_of code.now q g classes.now)) }
        ensures fits { OnOk result ((q : Place) → slice_get self.old.places.items k ≡ Some q
            → are_over (goals_of_calls code.now q g classes.now) self.old ≡ false) }
        ensures over { result ≡ Err Shapes → (q : Place) → slice_get self.old.places.items k ≡ Some q
            → are_over (goals_of_calls code.now q g classes.now) self.old ≡ true }
    {
        for class in 0..classes.len() {
            let mut edges = Seq::new(Vec::new(alloc));
            call_edges(
                alloc,
                code,
                &self.places.items()[k],
                g,
                &classes[class],
                &mut edges,
            )?;
            self.keep_edges(alloc, edges, class as u32, list)?;
        }
        Ok(())
    }

    /// Notes where the edges of the place at k lead that depend on no other function, and gives them.
    fn visit_own(
        &mut self,
        alloc: Global,
        code: &Code,
        live: &Liveness,
        k: usize,
    ) -> Result<Seq<FoundEdge>, GraphFault>
        requires well_formed { IsCodeOfFile code.now }
        requires live { IsLiveness code.now live.now }
        requires there { k < length self.old.places.items }
        requires place { (q : Place) → slice_get self.old.places.items k ≡ Some q
            → CanBeLeftAlone code.now q self.old }
        ensures noted { OnOk result ((q : Place) → slice_get self.old.places.items k ≡ Some q
            → self.new ≡ with_goals (own_goals code.now q) self.old) }
        ensures there { OnOk result (k < length self.new.places.items) }
        ensures edges { IfOk result (λ list. (q : Place) → slice_get self.old.places.items k ≡ Some q
            → (others : _) → list ≡ found_edges others self.new (edges_from code.now q)) }
        ensures fits { OnOk result ((q : Place) → slice_get self.old.places.items k ≡ Some q
            → are_over (own_goals code.now q) self.old ≡ false) }
        ensures over { result ≡ Err Shapes → (q : Place) → slice_get self.old.places.items k ≡ Some q
            → IsOwnOver code.now q self.old }
    {
        let mut edges = Seq::new(Vec::new(alloc));
        edges_from(alloc, code, live, &self.places.items()[k], &mut edges)?;
        let mut list = Seq::new(Vec::new(alloc));
        self.keep_edges(alloc, edges, 0, &mut list)?;
        Ok(list)
    }

    /// Notes where the edges of the place at k lead, and gives them.
    fn visit(
        &mut self,
        alloc: Global,
        code: &Code,
        live: &Liveness,
        classes: &Classes,
        k: usize,
    ) -> Result<Seq<FoundEdge>, GraphFault>
        requires well_formed { IsCodeOfFile code.now }
        requires live { IsLiveness code.now live.now }
        requires classes { AreClassLists (classes_of classes.now) }
        requires there { k < length self.old.places.items }
        requires place { (q : Place) → slice_get self.old.places.items k ≡ Some q
            → CanBeVisited code.now (classes_of classes.now) q self.old }
        ensures noted { OnOk result ((q : Place) → slice_get self.old.places.items k ≡ Some q
            → self.new ≡ with_goals (goals_from code.now (classes_of classes.now) q) self.old) }
        ensures edges { IfOk result (λ list. (q : Place) → slice_get self.old.places.items k ≡ Some q
            → list ≡ found_edges (classes_of classes.now) self.new
            (all_edges code.now (classes_of classes.now) q)) }
        ensures fits { OnOk result ((q : Place) → slice_get self.old.places.items k ≡ Some q
            → are_over (goals_from code.now (classes_of classes.now) q) self.old ≡ false) }
        ensures over { result ≡ Err Shapes → (q : Place) → slice_get self.old.places.items k ≡ Some q
            → IsVisitOver code.now (classes_of classes.now) q self.old }
    {
        let mut list = self.visit_own(alloc, code, live, k)?;
        match callee_at(code, &self.places.items()[k]) {
            Some(g) => {
                self.visit_calls(alloc, code, g, classes.of(g), k, &mut list)?;
                Ok(list)
            }
            None => Ok(list),
        }
    }
}

// ---- entries

/// What a function is entered with.
#[derive(Clone, Copy)]
struct Entered<'a> {
    statics: &'a [u32],
    code: &'a Code,
    live: &'a Liveness,
}

/// Notes the entry at which the parameters hold these values.
fn enter_here(
    alloc: Global,
    entered: &Entered<'_>,
    values: &[Holding],
    tokens: u32,
    found: &mut Found,
) -> Result<(), GraphFault>
    requires well_formed { IsCodeOfFile entered.now.code.now }
    requires live { IsLiveness entered.now.code.now entered.now.live.now }
    requires fits { length values.now ≤ length entered.now.code.now.vars }
    requires tokens { tokens ≡ length (tokens_in values.now) }
    requires few { tokens + length entered.now.statics.now < 2 ^ 31 }
    requires can { CanBeNoted (entry_goal entered.now.statics.now entered.now.code.now values.now) }
    ensures noted { OnOk result (found.new
        ≡ with_goal (entry_goal entered.now.statics.now entered.now.code.now values.now) found.old) }
    ensures fits { OnOk result (is_over (entry_goal entered.now.statics.now entered.now.code.now values.now) found.old
        ≡ false) }
    ensures over { result ≡ Err Shapes
        → is_over (entry_goal entered.now.statics.now entered.now.code.now values.now) found.old ≡ true }
{
    let shape = entry_shape(
        alloc,
        entered.statics,
        entered.code,
        entered.live,
        values,
        tokens,
    )?;
    find_place(alloc, &mut found.places, Place::AtEntry(shape))?;
    Ok(())
}

#[cycle(enter)]
/// Notes the entries at which one more parameter holds this value.
fn enter_with(
    alloc: Global,
    entered: &Entered<'_>,
    values: &mut Vec<Holding>,
    tokens: u32,
    value: Holding,
    found: &mut Found,
) -> Result<(), GraphFault>
    requires well_formed { IsCodeOfFile entered.now.code.now }
    requires live { IsLiveness entered.now.code.now entered.now.live.now }
    requires fits { length values.old.items < entered.now.code.now.params }
    requires tokens { tokens ≡ length (tokens_in (values.old.items ++ value ∷ [])) }
    requires few { tokens + (entered.now.code.now.params - (length values.old.items + 1))
        + length entered.now.statics.now < 2 ^ 31 }
    requires can { All CanBeNoted
        (entry_goals entered.now.statics.now entered.now.code.now (values.old.items ++ value ∷ []) tokens) }
    ensures values { OnOk result (values.new.items ≡ values.old.items) }
    ensures noted { OnOk result (found.new ≡ with_goals
        (entry_goals entered.now.statics.now entered.now.code.now (values.old.items ++ value ∷ []) tokens) found.old) }
    ensures fits { OnOk result (are_over
        (entry_goals entered.now.statics.now entered.now.code.now (values.old.items ++ value ∷ []) tokens) found.old
        ≡ false) }
    ensures over { result ≡ Err Shapes → are_over
        (entry_goals entered.now.statics.now entered.now.code.now (values.old.items ++ value ∷ []) tokens) found.old
        ≡ true }
{
    values.push(value)?;
    enter(alloc, entered, values, tokens, found)?;
    values.pop();
    Ok(())
}

#[cycle(enter)]
/// Notes the entries at which the first parameters hold these values, which have so many tokens.
fn enter(
    alloc: Global,
    entered: &Entered<'_>,
    values: &mut Vec<Holding>,
    tokens: u32,
    found: &mut Found,
) -> Result<(), GraphFault>
    requires well_formed { IsCodeOfFile entered.now.code.now }
    requires live { IsLiveness entered.now.code.now entered.now.live.now }
    requires fits { length values.old.items ≤ entered.now.code.now.params }
    requires tokens { tokens ≡ length (tokens_in values.old.items) }
    requires few { tokens + (entered.now.code.now.params - length values.old.items)
        + length entered.now.statics.now < 2 ^ 31 }
    requires can { All CanBeNoted
        (entry_goals entered.now.statics.now entered.now.code.now values.old.items tokens) }
    ensures values { OnOk result (values.new.items ≡ values.old.items) }
    ensures noted { OnOk result (found.new ≡ with_goals
        (entry_goals entered.now.statics.now entered.now.code.now values.old.items tokens) found.old) }
    ensures fits { OnOk result (are_over
        (entry_goals entered.now.statics.now entered.now.code.now values.old.items tokens) found.old ≡ false) }
    ensures over { result ≡ Err Shapes → are_over
        (entry_goals entered.now.statics.now entered.now.code.now values.old.items tokens) found.old ≡ true }
{
    let at = values.len();
    if at == entered.code.params as usize {
        return enter_here(alloc, entered, values.as_slice(), tokens, found);
    }
    let kind = entered.code.vars.as_slice()[at];
    if is_integer(kind) {
        return enter_with(alloc, entered, values, tokens, Holding::Number, found);
    }
    enter_with(alloc, entered, values, tokens, Holding::Null, found)?;
    if is_object(kind) {
        enter_with(
            alloc,
            entered,
            values,
            tokens + 1,
            Holding::Token(tokens),
            found,
        )
    } else {
        enter_with(alloc, entered, values, tokens, Holding::Text, found)
    }
}

/// All places and exit classes of a function, with the edges of the places, where the functions that it calls leave by
/// these exit classes.
pub(crate) fn search(
    alloc: Global,
    codes: &Codes,
    f: u32,
    statics: &[u32],
    code: &Code,
    live: &Liveness,
    classes: &Classes,
) -> Result<FoundGraph, GraphFault>
    requires code { code_at codes.now f ≡ Some code.now }
    requires well_formed { IsCodeOfFile code.now }
    requires live { IsLiveness code.now live.now }
    requires statics { statics.now ≡ statics_of codes.now f }
    requires few { code.now.params + length (statics_of codes.now f) < 2 ^ 31 }
    requires functions { length codes.now.codes < 2 ^ 32 }
    requires classes { AreClasses codes.now (classes_of classes.now) }
    ensures whole { IfOk result (λ graph. IsWhole codes.now f code.now (classes_of classes.now) graph.found) }
    ensures edges { IfOk result (λ graph. AreEdgesOf code.now (classes_of classes.now) graph.found graph.edges.items
        (length graph.found.places.items)) }
    ensures large { result ≡ Err Shapes → IsLargeBy codes.now (classes_of classes.now) f }
{
    let mut found = Found {
        places: Catalog::new(alloc),
        exits: Catalog::new(alloc),
    };
    let mut edges = Vec::new(alloc);
    let mut values = Vec::new(alloc);
    let entered = Entered {
        statics,
        code,
        live,
    };
    enter(alloc, &entered, &mut values, 0, &mut found)?;
    'visiting: for k in 0..MOST_PLACES {
        if k == found.places.items().len() {
            return Ok(FoundGraph { found, edges });
        }
        edges.push(found.visit(alloc, code, live, classes, k)?)?;
    }
    Ok(FoundGraph { found, edges })
}
