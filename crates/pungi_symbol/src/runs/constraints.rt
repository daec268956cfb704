// What a state notes of numbers, as constraints between nodes.
ghost use Rattle.std.specs.Prelude.{◌≡◌, ◌+◌, ◌<◌, ◌-ℤ◌, ◌^◌, ◌++◌, ◌≤ℤ◌, neg_ℤ, pos, true, length, map, get_or, All};
ghost use Rattle.std.specs.Prelude.{IfOk, OnOk};
ghost use Rattle.pungi_symbol.specs.declared.states.mark.Mark.TheVariants.{IsNull, Integer};
ghost use Rattle.pungi_symbol.specs.runs.Numbers.{is_integer, place_of_node, constraint_of, constraints_of_mark};
ghost use Rattle.pungi_symbol.specs.runs.Numbers.{constraints_from, constraints_of, IsIn, IsThere, AreThere};
ghost use Rattle.pungi_symbol.specs.states.Terms.{low_of, high_of};

use crate::states::integer_range::IntegerRange;
use crate::states::limit::Limit;
use crate::states::mark::Mark;
use crate::states::node::Node;
use crate::states::state::State;
use pungi_base::Memory;
use pungi_diff::Constraint;
use std::alloc::Global;

fn high_of(range: IntegerRange) -> i128
    ensures { result ≡ high_of range }
{
    match range {
        IntegerRange::Int => 0x7fff_ffff,
        IntegerRange::Long => 0x7fff_ffff_ffff_ffff,
        IntegerRange::SizeOrError => 0x7fff_ffff_ffff_ffff,
        IntegerRange::Flag => 1,
    }
}

/// How far a range goes below 0.
fn depth_of(range: IntegerRange) -> i128
    ensures { result ≡ pos 0 -ℤ low_of range }
{
    match range {
        IntegerRange::Int => 0x8000_0000,
        IntegerRange::Long => 0x8000_0000_0000_0000,
        IntegerRange::SizeOrError => 1,
        IntegerRange::Flag => 0,
    }
}

/// Whether a token with this mark stands for some number of a range.
fn is_integer(m: Mark) -> bool
    ensures { result ≡ is_integer m }
{
    match m {
        Mark::Pointer => false,
        Mark::TextPointer => false,
        Mark::IsNull => false,
        Mark::IsObject => false,
        Mark::IsText => false,
        Mark::IsNumber(_) => false,
        Mark::IsConverted(_) => false,
        Mark::Integer(_) => true,
    }
}

fn is_small(c: i128) -> bool
    ensures { result ≡ true → (c ≤ℤ pos (2 ^ 65)) × (neg_ℤ (pos (2 ^ 65)) ≤ℤ c) }
{
    c <= 0x2_0000_0000_0000_0000 && c >= -0x2_0000_0000_0000_0000
}

/// The place of a token that stands for some number of a range.
fn place_of_token(marks: &[Mark], t: usize) -> Result<usize, Memory>
    ensures is { IfOk result (λ n. n ≡ t + 1) }
    ensures there { IfOk result (λ _. (t < length marks.now) × (is_integer (get_or marks.now t IsNull) ≡ true)) }
{
    if t < marks.len() && marks.len() < 0x1_0000 && is_integer(marks[t]) {
        Ok(t + 1)
    } else {
        Err(Memory)
    }
}

/// The place of the result of a computation, where there are so many tokens.
fn place_of_result(tokens: usize, j: usize) -> Result<usize, Memory>
    ensures { IfOk result (λ n. n ≡ tokens + 1 + j) }
{
    if tokens < 0x1_0000 && j < 0x1_0000 {
        Ok(tokens + 1 + j)
    } else {
        Err(Memory)
    }
}

/// The place of a node, where the tokens have these marks.
fn place_of(marks: &[Mark], node: Node) -> Result<usize, Memory>
    ensures is { IfOk result (λ n. n ≡ place_of_node (length marks.now) node) }
    ensures there { IfOk result (λ _. IsThere marks.now node) }
{
    match node {
        Node::Zero => Ok(0),
        Node::Token(t) => place_of_token(marks, t),
        Node::Computed(j) => place_of_result(marks.len(), j),
    }
}

/// A constraint between two of so many nodes.
fn between(nodes: usize, x: usize, y: usize, c: i128) -> Result<Constraint, Memory>
    ensures is { IfOk result (λ k. k ≡ record { x = x; y = y; c = c }) }
    ensures within { IfOk result (λ k. IsIn nodes k) }
{
    if x >= nodes || y >= nodes || nodes > 0x1_0000 || !is_small(c) {
        return Err(Memory);
    }
    Ok(Constraint {
        x: x as u32,
        y: y as u32,
        c,
    })
}

/// Adds that the number of a token is within a range.
fn add_range(
    nodes: usize,
    t: usize,
    range: IntegerRange,
    constraints: &mut Vec<Constraint>,
) -> Result<(), Memory>
    requires { t < 2 ^ 63 }
    ensures is { OnOk result (constraints.new.items
        ≡ constraints.old.items ++ constraints_of_mark t (Integer range)) }
    ensures within { OnOk result (All (IsIn nodes) constraints.old.items → All (IsIn nodes) constraints.new.items) }
{
    constraints.push(between(nodes, t + 1, 0, high_of(range))?)?;
    constraints.push(between(nodes, 0, t + 1, depth_of(range))?)?;
    Ok(())
}

/// Adds what the mark of a token says of its number.
fn add_mark(
    nodes: usize,
    t: usize,
    m: Mark,
    constraints: &mut Vec<Constraint>,
) -> Result<(), Memory>
    requires { t < 2 ^ 63 }
    ensures is { OnOk result (constraints.new.items ≡ constraints.old.items ++ constraints_of_mark t m) }
    ensures within { OnOk result (All (IsIn nodes) constraints.old.items → All (IsIn nodes) constraints.new.items) }
{
    match m {
        Mark::Pointer => Ok(()),
        Mark::TextPointer => Ok(()),
        Mark::IsNull => Ok(()),
        Mark::IsObject => Ok(()),
        Mark::IsText => Ok(()),
        Mark::IsNumber(_) => Ok(()),
        Mark::IsConverted(_) => Ok(()),
        Mark::Integer(range) => add_range(nodes, t, range, constraints),
    }
}

fn constraints_of_marks(
    alloc: Global,
    nodes: usize,
    marks: &[Mark],
) -> Result<Vec<Constraint>, Memory>
    ensures is { IfOk result (λ ks. ks.items ≡ constraints_from 0 marks.now) }
    ensures within { IfOk result (λ ks. All (IsIn nodes) ks.items) }
{
    let mut constraints = Vec::new(alloc);
    for t in 0..marks.len() {
        add_mark(nodes, t, marks[t], &mut constraints)?;
    }
    Ok(constraints)
}

/// What bounds say, where there are so many nodes, and tokens with these marks.
pub fn constraints_of_limits(
    alloc: Global,
    nodes: usize,
    marks: &[Mark],
    limits: &[Limit],
) -> Result<Vec<Constraint>, Memory>
    ensures is { IfOk result (λ ks. ks.items ≡ map (constraint_of (length marks.now)) limits.now) }
    ensures there { IfOk result (λ _. All (AreThere marks.now) limits.now) }
    ensures within { IfOk result (λ ks. All (IsIn nodes) ks.items) }
{
    let mut constraints = Vec::new(alloc);
    for i in 0..limits.len() {
        let limit = limits[i];
        let (x, y) = (place_of(marks, limit.x)?, place_of(marks, limit.y)?);
        constraints.push(between(nodes, x, y, limit.c)?)?;
    }
    Ok(constraints)
}

/// All that a state says of numbers, where there are so many nodes.
pub fn constraints_of(alloc: Global, nodes: usize, state: &State) -> Result<Vec<Constraint>, Memory>
    ensures is { IfOk result (λ ks. ks.items ≡ constraints_of state.now) }
    ensures there { IfOk result (λ _. All (AreThere state.now.known.marks) state.now.limits) }
    ensures within { IfOk result (λ ks. All (IsIn nodes) ks.items) }
{
    let marks = state.known.marks.as_slice();
    let mut constraints = constraints_of_marks(alloc, nodes, marks)?;
    let limits = constraints_of_limits(alloc, nodes, marks, state.limits.as_slice())?;
    constraints.extend_from_slice(limits.as_slice())?;
    Ok(constraints)
}
