//! The callers of each function.
ghost use Rattle.std.specs.Prelude.{◌≡◌, ◌∷◌, [], length, OnOk, IfOk};
ghost use Rattle.pungi_check.specs.Worklist.{Added, AreCallers, NoCallers};

use crate::call_node::CallNode;
use pungi_base::Memory;
use std::alloc::Global;

/// Adds a caller of one function. A number that no function has is passed over.
fn add_caller(callers: &mut Vec<Vec<usize>>, callee: usize, caller: usize) -> Result<(), Memory>
    ensures { OnOk result (Added callers.old.items callers.new.items caller (callee ∷ [])) }
{
    if callee < callers.len() {
        callers[callee].push(caller)?;
    }
    Ok(())
}

fn add_calls(
    callers: &mut Vec<Vec<usize>>,
    caller: usize,
    callees: &Vec<usize>,
) -> Result<(), Memory>
    ensures { OnOk result (Added callers.old.items callers.new.items caller callees.now.items) }
{
    for callee in callees {
        add_caller(callers, *callee, caller)?;
    }
    Ok(())
}

fn no_callers(alloc: Global, count: usize) -> Result<Vec<Vec<usize>>, Memory>
    ensures { IfOk result (λ cs. NoCallers count cs.items) }
{
    let mut callers = Vec::new(alloc);
    for _ in 0..count {
        callers.push(Vec::new(alloc))?;
    }
    Ok(callers)
}

/// The callers of each function, by its number.
pub(crate) fn callers_of(alloc: Global, functions: &[CallNode]) -> Result<Vec<Vec<usize>>, Memory>
    ensures { IfOk result (λ cs. AreCallers functions.now cs.items) }
{
    let mut callers = no_callers(alloc, functions.len())?;
    for (caller, function) in functions.iter().enumerate() {
        add_calls(&mut callers, caller, &function.callees)?;
    }
    Ok(callers)
}
