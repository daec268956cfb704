//! The least set of refused functions, by a worklist over calls.
ghost use Rattle.std.specs.Prelude.{◌≡◌, ℕ, List, ◌∷◌, [], ◌++◌, replicate, false, is_some, if◌then◌else◌, OnOk, IfOk};
ghost use Rattle.pungi_types.specs.Files.{SourceFile, definitions};
ghost use Rattle.pungi_types.specs.Names.{is_among};
ghost use Rattle.pungi_types.specs.Refused.{IsRefusedSet};
ghost use Rattle.pungi_check.specs.CallGraph.{is_alone, IsReached, IsCallGraph, refused_names};
ghost use Rattle.pungi_check.specs.Worklist.{Visited};

use crate::call_node::CallNode;
use crate::callers::callers_of;
use pungi_base::Memory;
use pungi_types::Finding;
use std::alloc::Global;

/// Marks a function, which then waits, unless it is marked. A number that no function has is passed over.
fn mark(marks: &mut Vec<bool>, waiting: &mut Vec<usize>, function: usize) -> Result<(), Memory>
    ensures { OnOk result (Visited marks.old.items marks.new.items waiting.old.items waiting.new.items
        (function ∷ [])) }
{
    if function < marks.len() && !marks[function] {
        marks[function] = true;
        waiting.push(function)?;
    }
    Ok(())
}

fn mark_all(
    marks: &mut Vec<bool>,
    waiting: &mut Vec<usize>,
    functions: &Vec<usize>,
) -> Result<(), Memory>
    ensures { OnOk result (Visited marks.old.items marks.new.items waiting.old.items waiting.new.items
        functions.now.items) }
{
    for function in functions {
        mark(marks, waiting, *function)?;
    }
    Ok(())
}

fn no_marks(alloc: Global, count: usize) -> Result<Vec<bool>, Memory>
    ensures { IfOk result (λ marks. marks.items ≡ replicate count false) }
{
    Ok(vec![in alloc; false; count]?)
}

/// Adds the number of a function that has a finding.
fn note(numbers: &mut Vec<usize>, number: usize, alone: Option<Finding>) -> Result<(), Memory>
    ensures { OnOk result (numbers.new.items ≡ (if is_some alone then numbers.old.items ++ number
        ∷ [] else numbers.old.items)) }
{
    if alone.is_some() {
        numbers.push(number)?;
    }
    Ok(())
}

/// The functions in which a rule holds where no other is refused.
fn refused_alone(alloc: Global, functions: &[CallNode]) -> Result<Vec<usize>, Memory>
    ensures { IfOk result (λ is. (i : ℕ) → is_among is.items i ≡ is_alone functions.now i) }
{
    let mut alone = Vec::new(alloc);
    for (number, function) in functions.iter().enumerate() {
        note(&mut alone, number, function.alone)?;
    }
    Ok(alone)
}

/// The least set of refused functions of a file with this call graph, as marks by number: each in which a rule holds,
/// where a call of another refused function is one of what a rule refuses. Each function waits once, and each call is
/// visited twice.
pub(crate) fn least_set(alloc: Global, functions: &[CallNode]) -> Result<Vec<bool>, Memory>
    ensures reached { IfOk result (λ marks. IsReached functions.now marks.items) }
    ensures least { IfOk result (λ marks. (file : SourceFile) → IsCallGraph file functions.now
        → IsRefusedSet file (refused_names (definitions file.items) marks.items)) }
{
    let callers = callers_of(alloc, functions)?;
    let mut marks = no_marks(alloc, functions.len())?;
    let mut waiting = Vec::new(alloc);
    let alone = refused_alone(alloc, functions)?;
    mark_all(&mut marks, &mut waiting, &alone)?;
    while let Some(function) = waiting.pop() {
        mark_all(&mut marks, &mut waiting, &callers[function])?;
    }
    Ok(marks)
}
