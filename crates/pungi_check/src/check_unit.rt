//! A unit is checked as a whole, and then function by function.
ghost use Rattle.std.specs.Prelude.{◌≡◌, ◌+◌, ◌≤◌, None, length, IfOk, IfErr, OnOk, IsTrue, map, true};
ghost use Rattle.std.specs.List.{list_all};
ghost use Rattle.pungi_check.specs.Duplicates.{faults};
ghost use Rattle.pungi_check.specs.Faults.{IsFaultOf};
ghost use Rattle.pungi_check.specs.Found.{IsFound, IsChecked, checked_view, is_sound_function};
ghost use Rattle.pungi_check.specs.Graph.{graph_of, node_view};
ghost use Rattle.pungi_check.specs.declared.fault.UnitFault.TheVariants.{DuplicateName, TooManyFunctions};
ghost use Rattle.pungi_api.specs.Rows.{are_rows};
ghost use Rattle.pungi_base.specs.Numbers.{static_count};
ghost use Rattle.pungi_declared.specs.DeclaredView.{function_view};
ghost use Rattle.pungi_names.specs.Limits.{most_tokens};
ghost use Rattle.pungi_names.specs.NamesView.{file_of};
ghost use Rattle.pungi_resolve.specs.Resolutions.{resolution_of, resolution_view};
ghost use Rattle.pungi_tree.specs.UnitFlat.{items_flat};
ghost use Rattle.pungi_tree.specs.UnitView.{unit_view};
ghost use Rattle.pungi_types.specs.Files.{source_file, definitions};
ghost use Rattle.pungi_types.specs.Findings.{least};
ghost use Rattle.pungi_types.specs.Functions.{refusal};
ghost use Rattle.pungi_types.specs.Limits.{most_statics};
ghost use Rattle.pungi_types.specs.Names.{type_objects};
ghost use Rattle.pungi_types.specs.Refused.{IsRefusedSet};

use crate::call_node::CallNode;
use crate::file_faults::faults;
use crate::graph::graph;
use crate::refusals::refusals;
use crate::refused_words::refused_words;
use crate::resolutions::resolutions;
use crate::worklist::least_set;
use crate::{Checked, UnitFault};
use indexmap::IndexSet;
use pungi_api::{FileTerms, Table};
use pungi_base::words::STATICS;
use pungi_base::{Memory, Name, Names, Rule, Seq};
use pungi_declared::definitions;
use pungi_names::{UnitNames, unit_names};
use pungi_resolved::Function;
use pungi_tree::{FunctionDef, Unit};
use pungi_types::Finding;
use std::alloc::Global;

/// The fault that a finding stands for.
fn fault(found: Finding) -> UnitFault
    ensures one { found.rule.0 ≡ 1 → result ≡ DuplicateName found.pos }
    ensures two { found.rule.0 ≡ 2 → result ≡ TooManyFunctions found.pos }
{
    match found.rule {
        Rule(1) => UnitFault::DuplicateName(found.pos),
        _ => UnitFault::TooManyFunctions(found.pos),
    }
}

/// Goes on where no name of a file is used twice and no function is one too many.
fn refuse_fault(
    alloc: Global,
    names: &UnitNames<'_>,
    unit: &Unit,
    functions: &Vec<&FunctionDef>,
) -> Result<(), UnitFault>
    requires unit { unit_view unit.now ≡ (file_of names.now).items }
    requires listed { map function_view functions.now.items ≡ definitions (file_of names.now).items }
    ensures none { OnOk result (least (faults (file_of names.now)) ≡ None) }
    ensures fault { IfErr result (λ e. IsFaultOf (file_of names.now) e) }
{
    match faults(alloc, names, unit, functions) {
        Ok(None) => Ok(()),
        Ok(Some(found)) => Err(fault(found)),
        Err(Memory) => Err(UnitFault::Memory),
    }
}

/// How many static objects there are.
fn statics(names: &UnitNames<'_>) -> u32
    ensures counted { result ≡ static_count + length (type_objects (file_of names.now).items) }
    ensures few { result ≤ most_statics }
{
    STATICS + names.type_objects()
}

/// The names of functions.
fn names_of(alloc: Global, list: &[&FunctionDef]) -> Result<Seq<Name>, Memory>
    ensures { IfOk result (λ names. names ≡ map (λ d. d.name) (map function_view list.now)) }
{
    let mut names = Seq::new(Vec::new(alloc));
    for f in list {
        names.push(f.name)?;
    }
    Ok(names)
}

/// The names of the refused functions of a file with this call graph.
fn refused_set(
    alloc: Global,
    names: &UnitNames<'_>,
    list: &[&FunctionDef],
    graph: &Vec<CallNode>,
) -> Result<IndexSet<u32>, Memory>
    requires listed { map function_view list.now ≡ definitions (file_of names.now).items }
    requires none { least (faults (file_of names.now)) ≡ None }
    requires graph { map node_view graph.now.items ≡ graph_of (file_of names.now) }
    ensures { IfOk result (λ refused. IsRefusedSet (file_of names.now) refused.keys) }
{
    let marks = least_set(alloc, graph)?;
    let refused = refused_words(alloc, list, &marks)?;
    Ok(refused)
}

/// The refused functions of a file, the finding of each function, and what each does in which no rule holds.
#[derive(Drop)]
struct Found {
    refused: IndexSet<u32>,
    refusals: Vec<Option<Finding>>,
    resolved: Vec<Option<Function>>,
}

/// What is found of the functions of a file without a fault.
fn find(alloc: Global, names: &UnitNames<'_>, list: &[&FunctionDef]) -> Result<Found, Memory>
    requires listed { map function_view list.now ≡ definitions (file_of names.now).items }
    requires none { least (faults (file_of names.now)) ≡ None }
    ensures set { IfOk result (λ f. IsRefusedSet (file_of names.now) f.refused.keys) }
    ensures refusals { IfOk result (λ f. f.refusals.items
        ≡ map (refusal (file_of names.now) f.refused.keys) (definitions (file_of names.now).items)) }
    ensures resolved { IfOk result (λ f. map resolution_view f.resolved.items
        ≡ map (resolution_of (file_of names.now) f.refused.keys) (definitions (file_of names.now).items)) }
    ensures sound { IfOk result (λ f. list_all is_sound_function (map resolution_view f.resolved.items) ≡ true) }
{
    let graph = graph(alloc, names, list)?;
    let refused = refused_set(alloc, names, list, &graph)?;
    let refusals = refusals(alloc, names, &refused, list, &graph)?;
    let resolved = resolutions(alloc, names, &refused, list, &refusals)?;
    Ok(Found {
        refused,
        refusals,
        resolved,
    })
}

/// What is found of a unit with these names, which defines these functions.
fn look<'u>(
    alloc: Global,
    names: &UnitNames<'u>,
    unit: &Unit,
    list: &Vec<&FunctionDef>,
) -> Result<Parts, UnitFault>
    requires unit { unit_view unit.now ≡ (file_of names.now).items }
    requires listed { map function_view list.now.items ≡ definitions (file_of names.now).items }
    requires rows { IsTrue (are_rows (file_of names.now).rows) }
    ensures found { IfOk result (λ p. IsFound (file_of names.now) p.names p.found.refused.keys
        p.found.refusals.items (map resolution_view p.found.resolved.items) p.statics) }
    ensures fault { IfErr result (λ e. IsFaultOf (file_of names.now) e) }
{
    refuse_fault(alloc, names, unit, list)?;
    let own = names_of(alloc, list)?;
    let found = find(alloc, names, list)?;
    Ok(Parts {
        names: own,
        found,
        statics: statics(names),
    })
}

/// What is found of a unit.
#[derive(Drop)]
struct Parts {
    names: Seq<Name>,
    found: Found,
    statics: u32,
}

/// What is found of a unit that defines these functions.
fn look_at(
    alloc: Global,
    texts: &Names,
    unit: &Unit,
    rows: &Table,
    terms: &FileTerms,
    list: &Vec<&FunctionDef>,
) -> Result<Parts, UnitFault>
    requires functions { map function_view list.now.items ≡ definitions (unit_view unit.now) }
    requires few { length (items_flat (unit_view unit.now)) ≤ most_tokens }
    ensures found { IfOk result (λ p. IsFound (source_file texts.now (unit_view unit.now) rows.now terms.now) p.names
        p.found.refused.keys p.found.refusals.items (map resolution_view p.found.resolved.items) p.statics) }
    ensures fault { IfErr result (λ e. IsFaultOf (source_file texts.now (unit_view unit.now) rows.now terms.now) e) }
{
    rows.rows_are_well_formed();
    let names = unit_names(alloc, texts, unit, rows, terms, list)?;
    look(alloc, &names, unit, list)
}

/// A unit of at most 262,144 tokens that is accepted, with what is found of each of its functions. One with a fault is
/// refused: the first in its text is reported. `Memory` where memory ran out.
pub fn check<'u>(
    alloc: Global,
    texts: &'u Names,
    unit: &'u Unit,
    rows: &'u Table,
    terms: &'u FileTerms,
) -> Result<Checked<'u>, UnitFault>
    requires { length (items_flat (unit_view unit.now)) ≤ most_tokens }
    ensures file { IfOk result (λ c. (checked_view c).file ≡ source_file texts.now (unit_view unit.now) rows.now terms.now) }
    ensures checked { IfOk result (λ c. IsChecked c) }
    ensures fault { IfErr result (λ e. IsFaultOf (source_file texts.now (unit_view unit.now) rows.now terms.now) e) }
{
    let list = definitions(alloc, unit)?;
    let Parts {
        names,
        found,
        statics,
    } = look_at(alloc, texts, unit, rows, terms, &list)?;
    let Found {
        refused,
        refusals,
        resolved,
    } = found;
    Ok(Checked {
        texts,
        unit,
        rows,
        terms,
        names,
        refused,
        refusals,
        resolved,
        statics,
    })
}
