//! The finding of each function.
ghost use Rattle.std.specs.Prelude.{◌≡◌, IfOk, map};
ghost use Rattle.pungi_check.specs.Graph.{node_view, node_of};
ghost use Rattle.pungi_declared.specs.DeclaredView.{function_view};
ghost use Rattle.pungi_names.specs.NamesView.{file_of};
ghost use Rattle.pungi_types.specs.Files.{definitions, number_in};
ghost use Rattle.pungi_types.specs.Functions.{refusal};
ghost use Rattle.pungi_types.specs.TypesView.{definition_view};

use crate::call_node::CallNode;
use indexmap::IndexSet;
use pungi_base::Memory;
use pungi_names::{FileNames, UnitNames};
use pungi_scope::refusal;
use pungi_tree::FunctionDef;
use pungi_types::Finding;
use std::alloc::Global;

/// The finding of a function where these are refused.
pub(crate) fn finding(
    alloc: Global,
    names: &UnitNames<'_>,
    refused: &IndexSet<u32>,
    f: &FunctionDef,
) -> Result<Option<Finding>, Memory>
    ensures { IfOk result (λ found. found ≡ refusal (file_of names.now) refused.now.keys (definition_view f.now)) }
{
    let here = FileNames {
        names,
        refused,
        own: f.name,
    };
    refusal(alloc, &here, names.terms().declared(f.name), f)
}

/// The finding of a function where these are refused. The rules are asked again only of one that calls others.
fn settled(
    alloc: Global,
    names: &UnitNames<'_>,
    refused: &IndexSet<u32>,
    f: &FunctionDef,
    node: &CallNode,
) -> Result<Option<Finding>, Memory>
    requires { node_view node.now ≡ node_of (file_of names.now) (number_in 0
        (definitions (file_of names.now).items)) (definition_view f.now) }
    ensures { IfOk result (λ found. found ≡ refusal (file_of names.now) refused.now.keys (definition_view f.now)) }
{
    if node.callees.is_empty() {
        Ok(node.alone)
    } else {
        finding(alloc, names, refused, f)
    }
}

/// The finding of each function where these are refused.
pub(crate) fn refusals(
    alloc: Global,
    names: &UnitNames<'_>,
    refused: &IndexSet<u32>,
    list: &[&FunctionDef],
    graph: &[CallNode],
) -> Result<Vec<Option<Finding>>, Memory>
    requires { map node_view graph.now ≡ map (node_of (file_of names.now) (number_in 0
        (definitions (file_of names.now).items))) (map function_view list.now) }
    ensures { IfOk result (λ all. all.items ≡ map (refusal (file_of names.now) refused.now.keys)
        (map function_view list.now)) }
{
    let mut all = Vec::new(alloc);
    for (i, f) in list.iter().enumerate() {
        let found = settled(alloc, names, refused, f, &graph[i])?;
        all.push(found)?;
    }
    Ok(all)
}
