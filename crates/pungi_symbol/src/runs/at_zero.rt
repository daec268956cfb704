// The results of a path's computations where each number that enters one is 0.
ghost use Rattle.std.specs.Prelude.{◌≡◌, length, IfOk, OnErr, OnOk, MatchBool, MatchOption};
ghost use Rattle.pungi_types.specs.declared.kind.ValueKind.TheVariants.{Long as IsLong};
ghost use Rattle.pungi_meaning.specs.Values.{in_range};
ghost use Rattle.pungi_symbol.specs.states.Terms.{NodeBelow, node_value, sum_value};
ghost use Rattle.pungi_symbol.specs.runs.AtZero.{IsZeroNode, AreNeverAtZero, MeansAtZero, result_at, results_table};
ghost use Rattle.pungi_symbol.specs.runs.AtZero.{AreResults, Adds, IsResultAtZero, SayResults};

use crate::states::computation::Computation;
use crate::states::limit::Limit;
use crate::states::node::Node;
use crate::states::sum::Sum;
use pungi_base::Memory;
use pungi_meaning::arithmetic;
use std::alloc::Global;

/// The number at a node where each token is 0 and these are the results of computations.
fn node_at_zero(results: &[i64], node: Node) -> i64
    ensures { result ≡ node_value (results_table results.now) node }
{
    match node {
        Node::Zero => 0,
        Node::Token(_) => 0,
        Node::Computed(j) => match results.get(j) {
            Some(n) => *n,
            None => 0,
        },
    }
}

fn whole(n: i128) -> Option<i64>
    ensures { result ≡ in_range IsLong n }
{
    if -0x8000_0000_0000_0000 <= n && n <= 0x7fff_ffff_ffff_ffff {
        Some(n as i64)
    } else {
        None
    }
}

/// The number of a sum there, where it has 64 bits.
fn sum_at_zero(results: &[i64], sum: Sum) -> Option<i64>
    ensures { result ≡ in_range IsLong (sum_value (results_table results.now) sum) }
{
    match (node_at_zero(results, sum.node) as i128).checked_add(sum.plus) {
        Some(n) => whole(n),
        None => None,
    }
}

fn result_at(results: &[i64], c: Computation) -> Option<i64>
    ensures { result ≡ result_at (results_table results.now) c }
{
    match sum_at_zero(results, c.a) {
        None => None,
        Some(a) => match sum_at_zero(results, c.b) {
            None => None,
            Some(b) => arithmetic(c.op, c.kind, a, b),
        },
    }
}

/// Whether a node is no result of a computation, or that of one of the first.
fn is_below(count: usize, node: Node) -> bool
    ensures { MatchBool result (NodeBelow count node) (NodeBelow count node → ⊥) }
{
    match node {
        Node::Zero => true,
        Node::Token(_) => true,
        Node::Computed(j) => j < count,
    }
}

/// The result of the next computation, where these are the results of those before it. `Memory` is reported where it
/// takes the result of another one.
fn next_result(results: &[i64], c: Computation) -> Result<Option<i64>, Memory>
    ensures earlier { IfOk result (λ _. NodeBelow (length results.now) c.a.node
        × NodeBelow (length results.now) c.b.node) }
    ensures later { OnErr result (NodeBelow (length results.now) c.a.node × NodeBelow (length results.now) c.b.node
        → ⊥) }
    ensures is { IfOk result (λ o. o ≡ result_at (results_table results.now) c) }
{
    if is_below(results.len(), c.a.node) && is_below(results.len(), c.b.node) {
        Ok(result_at(results, c))
    } else {
        Err(Memory)
    }
}

/// The results of computations where each token that enters one is 0, if each has one.
fn results_at_zero(alloc: Global, computed: &[Computation]) -> Result<Option<Vec<i64>>, Memory>
    ensures { IfOk result (λ o. MatchOption o (AreNeverAtZero computed.now)
        (λ ns. AreResults (length computed.now) computed.now ns.items)) }
{
    let mut results = Vec::new(alloc);
    for j in 0..computed.len() {
        match next_result(results.as_slice(), computed[j])? {
            None => return Ok(None),
            Some(n) => results.push(n)?,
        }
    }
    Ok(Some(results))
}

// ---- as bounds

/// Adds that the number at a node is this one.
fn add_number(limits: &mut Vec<Limit>, node: Node, n: i64) -> Result<(), Memory>
    ensures { OnOk result (Adds limits.old.items limits.new.items (λ table. node_value table node ≡ n)) }
{
    limits.push(Limit {
        x: node,
        y: Node::Zero,
        c: n as i128,
    })?;
    limits.push(Limit {
        x: Node::Zero,
        y: node,
        c: 0 - n as i128,
    })?;
    Ok(())
}

/// Adds that a token of a node is 0.
fn add_zero(limits: &mut Vec<Limit>, node: Node) -> Result<(), Memory>
    ensures { OnOk result (Adds limits.old.items limits.new.items (λ table. IsZeroNode table node)) }
{
    match node {
        Node::Zero => Ok(()),
        Node::Token(t) => add_number(limits, Node::Token(t), 0),
        Node::Computed(_) => Ok(()),
    }
}

/// Adds that each token that enters a computation is 0, and that this is its result.
fn add_result(limits: &mut Vec<Limit>, j: usize, c: Computation, n: i64) -> Result<(), Memory>
    ensures { OnOk result (Adds limits.old.items limits.new.items (λ table. IsResultAtZero table c j n)) }
{
    add_zero(limits, c.a.node)?;
    add_zero(limits, c.b.node)?;
    add_number(limits, Node::Computed(j), n)?;
    Ok(())
}

fn limits_of_results(
    alloc: Global,
    computed: &[Computation],
    results: &[i64],
) -> Result<Vec<Limit>, Memory>
    requires { length results.now ≡ length computed.now }
    ensures { IfOk result (λ ls. SayResults (length computed.now) computed.now results.now ls.items) }
{
    let mut limits = Vec::new(alloc);
    for j in 0..computed.len() {
        add_result(&mut limits, j, computed[j], results[j])?;
    }
    Ok(limits)
}

/// Bounds that numbers meet exactly where each token that enters one of these computations is 0, what it takes has 64
/// bits, and its result is what its operator gives. There are none where an operator gives nothing then. `Memory` is
/// also reported where one takes the result of another that isn't earlier.
pub fn limits_at_zero(alloc: Global, computed: &[Computation]) -> Result<Option<Vec<Limit>>, Memory>
    ensures { IfOk result (λ o. MatchOption o (AreNeverAtZero computed.now)
        (λ ls. MeansAtZero computed.now ls.items)) }
{
    match results_at_zero(alloc, computed)? {
        None => Ok(None),
        Some(results) => {
            let limits = limits_of_results(alloc, computed, results.as_slice())?;
            Ok(Some(limits))
        }
    }
}
