// Numbers that meet all that a state notes of them.
ghost use Rattle.std.specs.Prelude.{◌≡◌, ◌+◌, ◌≤◌, ◌<◌, [], length, map, drop, All, MatchOption, false};
ghost use Rattle.std.specs.Prelude.{reverse};
ghost use Rattle.std.specs.Prelude.{MatchBool, IfOk, IfSome, is_some};
ghost use Rattle.pungi_diff.specs.Round.{HasNoSolution};
ghost use Rattle.pungi_symbol.specs.runs.Numbers.{number_where_free, number_for, numbers_from, AreInMarks, IsInRange};
ghost use Rattle.pungi_symbol.specs.runs.Numbers.{IsIn, IsSolution, numbers_in};
ghost use Rattle.pungi_symbol.specs.states.Known.{count};
ghost use Rattle.pungi_symbol.specs.declared.states.mark.Mark.TheVariants.{Integer};
ghost use Rattle.pungi_symbol.specs.runs.Numbers.{HasNoTableWith};
ghost use Rattle.pungi_symbol.specs.runs.Paths.{IsModel, IsMetBy, Numbers, AreComputed, HasNoTable};
ghost use Rattle.pungi_symbol.specs.runs.AtZero.{HasNoZeroTable};

use crate::runs::at_zero::limits_at_zero;
use crate::runs::candidate::is_met_at_once;
use crate::runs::constraints::{constraints_of, constraints_of_limits};
use crate::runs::model::Model;
use crate::runs::opposed::are_last_opposed;
use crate::states::integer_range::IntegerRange;
use crate::states::limit::Limit;
use crate::states::mark::Mark;
use crate::states::state::State;
use pungi_base::Memory;
use pungi_diff::{Bounds, Constraint};
use std::alloc::Global;

/// The number of a token where no bound is noted.
pub fn number_where_free(m: Mark) -> i64
    ensures { result ≡ number_where_free m }
{
    match m {
        Mark::Pointer => 0,
        Mark::TextPointer => 0,
        Mark::IsNull => 0,
        Mark::IsObject => 0,
        Mark::IsText => 0,
        Mark::IsNumber(n) => n,
        Mark::IsConverted(n) => n,
        Mark::Integer(_) => 0,
    }
}

fn free_numbers(alloc: Global, marks: &[Mark]) -> Result<Vec<i64>, Memory>
    ensures { IfOk result (λ ns. ns.items ≡ map number_where_free marks.now) }
{
    let numbers: Vec<i64> = marks.iter().map(|m| number_where_free(*m)).collect(alloc)?;
    Ok(numbers)
}

/// Holds all of the constraints, or finds that no values meet them. The last one comes first, since later answers say
/// more of a number than earlier ones.
#[tactic(auto, using(crate::proofs::runs::Reversed::reversed_all))]
fn hold_all(bounds: &mut Bounds, constraints: &[Constraint]) -> bool
    requires empty { bounds.old.held ≡ [] }
    requires within { All (IsIn bounds.old.nodes) constraints.now }
    requires room { length constraints.now ≤ bounds.old.room }
    ensures held { MatchBool result (bounds.new.held ≡ reverse constraints.now) (HasNoSolution constraints.now) }
    ensures nodes { bounds.new.nodes ≡ bounds.old.nodes }
{
    let count = constraints.len();
    for i in 0..count {
        let k = constraints[count - 1 - i];
        match bounds.add(k.x, k.y, k.c) {
            Ok(_) => {}
            Err(_) => return false,
        }
    }
    true
}

/// Values of so many nodes that meet the constraints, if there are some.
fn values_of(
    alloc: Global,
    nodes: usize,
    constraints: &[Constraint],
) -> Result<Option<Vec<i128>>, Memory>
    requires within { All (IsIn nodes) constraints.now }
    requires some { 0 < nodes }
    ensures { IfOk result (λ o. MatchOption o (HasNoSolution constraints.now)
        (λ values. IsSolution nodes constraints.now values.items)) }
{
    if nodes > 0x1_0000 || constraints.len() > 0x1_0000 {
        return Err(Memory);
    }
    let mut bounds = Bounds::new(alloc, nodes as u32, constraints.len() as u32)?;
    if !hold_all(&mut bounds, constraints) {
        return Ok(None);
    }
    let values = bounds.model(alloc)?;
    Ok(Some(values))
}

fn whole(range: IntegerRange, value: i128) -> i64
    requires { IsInRange (Integer range) value }
    ensures { result ≡ value }
{
    match range {
        IntegerRange::Int => value as i64,
        IntegerRange::Long => value as i64,
        IntegerRange::SizeOrError => value as i64,
        IntegerRange::Flag => value as i64,
    }
}

fn number_for(m: Mark, value: i128) -> i64
    requires { IsInRange m value }
    ensures { result ≡ number_for m value }
{
    match m {
        Mark::Pointer => 0,
        Mark::TextPointer => 0,
        Mark::IsNull => 0,
        Mark::IsObject => 0,
        Mark::IsText => 0,
        Mark::IsNumber(n) => n,
        Mark::IsConverted(n) => n,
        Mark::Integer(range) => whole(range, value),
    }
}

/// The numbers of tokens, by the values of the nodes after the first.
#[tactic(auto, using(crate::proofs::runs::Models::number_step))]
fn numbers_of(alloc: Global, marks: &[Mark], values: &[i128]) -> Result<Vec<i64>, Memory>
    requires all { length marks.now + 1 ≤ length values.now }
    requires marks { AreInMarks marks.now values.now }
    ensures { IfOk result (λ ns. ns.items ≡ numbers_from 0 marks.now values.now) }
{
    let mut numbers = Vec::new(alloc);
    for t in 0..marks.len() {
        numbers.push(number_for(marks[t], values[t + 1]))?;
    }
    Ok(numbers)
}

/// The values of the nodes after those of the tokens.
fn rest_of(alloc: Global, tokens: usize, values: &[i128]) -> Result<Vec<i128>, Memory>
    requires { tokens + 1 ≤ length values.now }
    ensures { IfOk result (λ ns. ns.items ≡ drop (tokens + 1) values.now) }
{
    let numbers = Vec::from_slice(alloc, &values[tokens + 1..])?;
    Ok(numbers)
}

fn model_in(alloc: Global, marks: &[Mark], values: &[i128]) -> Result<Model, Memory>
    requires all { length marks.now + 1 ≤ length values.now }
    requires marks { AreInMarks marks.now values.now }
    ensures tokens { IfOk result (λ m. m.tokens.items ≡ numbers_from 0 marks.now values.now) }
    ensures computed { IfOk result (λ m. m.computed.items ≡ drop (length marks.now + 1) values.now) }
{
    let tokens = numbers_of(alloc, marks, values)?;
    let computed = rest_of(alloc, marks.len(), values)?;
    Ok(Model { tokens, computed })
}

/// How many nodes a state speaks of: the number 0, its tokens and its computations.
fn nodes_of(state: &State) -> Result<usize, Memory>
    ensures { IfOk result (λ n. n ≡ (count state.now.known + 1) + length state.now.known.computed) }
{
    let (tokens, computed) = (state.known.marks.len(), state.known.computed.len());
    if tokens < 0x1_0000 && computed < 0x1_0000 {
        Ok(tokens + 1 + computed)
    } else {
        Err(Memory)
    }
}

/// Numbers that meet what a state notes of them and these bounds too.
fn solved(alloc: Global, state: &State, more: &[Limit]) -> Result<Option<Model>, Memory>
    ensures model { IfOk result (λ o. IfSome o (λ m. IsModel state.now (numbers_in m))) }
    ensures more { IfOk result (λ o. IfSome o (λ m. All (IsMetBy (numbers_in m)) more.now)) }
    ensures none { IfOk result (λ o. is_some o ≡ false → HasNoTableWith state.now more.now) }
{
    let nodes = nodes_of(state)?;
    let mut constraints = constraints_of(alloc, nodes, state)?;
    let others = constraints_of_limits(alloc, nodes, state.known.marks.as_slice(), more)?;
    constraints.extend_from_slice(others.as_slice())?;
    match values_of(alloc, nodes, constraints.as_slice())? {
        None => Ok(None),
        Some(values) => {
            let model = model_in(alloc, state.known.marks.as_slice(), values.as_slice())?;
            Ok(Some(model))
        }
    }
}

fn free_model(alloc: Global, state: &State) -> Result<Model, Memory>
    ensures tokens { IfOk result (λ m. m.tokens.items ≡ map number_where_free state.now.known.marks) }
{
    let tokens = free_numbers(alloc, state.known.marks.as_slice())?;
    Ok(Model {
        tokens,
        computed: Vec::new(alloc),
    })
}

/// Numbers for the tokens of a state and for its computations, whatever their operators give, where there are some.
fn model_of(alloc: Global, state: &State) -> Result<Option<Model>, Memory>
    ensures { IfOk result (λ o. MatchOption o (HasNoTable state.now) (λ m. IsModel state.now (numbers_in m))) }
{
    if !state.limits.is_empty() {
        return match solved(alloc, state, &[])? {
            None => Ok(None),
            Some(model) => Ok(Some(model)),
        };
    }
    let model = free_model(alloc, state)?;
    Ok(Some(model))
}

/// The same by which each number that enters a computation is 0, and its result is what its operator gives.
fn zero_model_of(alloc: Global, state: &State) -> Result<Option<Model>, Memory>
    ensures model { IfOk result (λ o. IfSome o (λ m. IsModel state.now (numbers_in m))) }
    ensures real { IfOk result (λ o. IfSome o (λ m. AreComputed state.now.known (numbers_in m))) }
    ensures none { IfOk result (λ o. is_some o ≡ false → HasNoZeroTable state.now) }
{
    match limits_at_zero(alloc, state.known.computed.as_slice())? {
        None => Ok(None),
        Some(zeros) => {
            let model = solved(alloc, state, zeros.as_slice())?;
            Ok(model)
        }
    }
}

/// The same, where results are what operators give; where there are computations, each number that enters one is 0.
pub fn real_model_of(alloc: Global, state: &State) -> Result<Option<Model>, Memory>
    ensures model { IfOk result (λ o. IfSome o (λ m. IsModel state.now (numbers_in m))) }
    ensures real { IfOk result (λ o. IfSome o (λ m. AreComputed state.now.known (numbers_in m))) }
    ensures none { IfOk result (λ o. is_some o ≡ false → HasNoZeroTable state.now) }
{
    if state.known.computed.is_empty() {
        let model = model_of(alloc, state)?;
        return Ok(model);
    }
    let model = zero_model_of(alloc, state)?;
    Ok(model)
}

/// Whether there are numbers for the tokens of a state and for its computations, whatever their operators give.
pub fn has_model(alloc: Global, state: &State) -> Result<bool, Memory>
    ensures { IfOk result (λ b. MatchBool b ((ns : Numbers) × IsModel state.now ns) (HasNoTable state.now)) }
{
    if state.limits.is_empty() {
        return Ok(true);
    }
    if are_last_opposed(state.limits.as_slice()) {
        return Ok(false);
    }
    if is_met_at_once(alloc, state)? {
        return Ok(true);
    }
    match solved(alloc, state, &[])? {
        None => Ok(false),
        Some(_) => Ok(true),
    }
}
