//! The call graph of a file's functions.
ghost use Rattle.std.specs.Prelude.{◌≡◌, IfOk, map};
ghost use Rattle.pungi_declared.specs.DeclaredView.{function_view};
ghost use Rattle.pungi_names.specs.NamesView.{file_of};
ghost use Rattle.pungi_check.specs.Calls.{called_words};
ghost use Rattle.pungi_types.specs.TypesView.{definition_view};
ghost use Rattle.pungi_check.specs.Graph.{callees as callees_of, node_view, node_of};
ghost use Rattle.pungi_types.specs.Files.{definitions, number_in};

use crate::call_node::CallNode;
use crate::calls::called_words;
use crate::refusals::finding;
use indexmap::IndexSet;
use pungi_base::Memory;
use pungi_names::UnitNames;
use pungi_tree::FunctionDef;
use std::alloc::Global;

/// The numbers of the functions that are called by these words.
fn callees(alloc: Global, names: &UnitNames<'_>, words: &[u32]) -> Result<Vec<usize>, Memory>
    ensures { IfOk result (λ js. js.items ≡ callees_of (number_in 0 (definitions (file_of names.now).items)) words.now) }
{
    let mut callees = Vec::new(alloc);
    for word in words {
        if let Some(number) = names.function_number(*word) {
            callees.push(number)?;
        }
    }
    Ok(callees)
}

/// The numbers of the functions that a function calls.
fn called(alloc: Global, names: &UnitNames<'_>, f: &FunctionDef) -> Result<Vec<usize>, Memory>
    ensures { IfOk result (λ js. js.items ≡ callees_of (number_in 0 (definitions (file_of names.now).items))
        (called_words (definition_view f.now))) }
{
    let words = called_words(alloc, &f.body)?;
    callees(alloc, names, words.as_slice())
}

/// The finding of a function where no other one is refused, and what it calls.
fn node(alloc: Global, names: &UnitNames<'_>, f: &FunctionDef) -> Result<CallNode, Memory>
    ensures { IfOk result (λ n. node_view n ≡ node_of (file_of names.now)
        (number_in 0 (definitions (file_of names.now).items)) (definition_view f.now)) }
{
    let none = IndexSet::new(alloc);
    let alone = finding(alloc, names, &none, f)?;
    let callees = called(alloc, names, f)?;
    Ok(CallNode { alone, callees })
}

/// The call graph.
pub(crate) fn graph(
    alloc: Global,
    names: &UnitNames<'_>,
    list: &[&FunctionDef],
) -> Result<Vec<CallNode>, Memory>
    ensures { IfOk result (λ ns. map node_view ns.items
        ≡ map (node_of (file_of names.now) (number_in 0 (definitions (file_of names.now).items)))
        (map function_view list.now)) }
{
    let mut nodes = Vec::new(alloc);
    for f in list {
        nodes.push(node(alloc, names, f)?)?;
    }
    Ok(nodes)
}
