//! Functions and variables with names that are taken, and functions that are too many.
ghost use Rattle.std.specs.Prelude.{◌≡◌, [], OnOk, map, slice_get};
ghost use Rattle.pungi_declared.specs.DeclaredView.{function_view};
ghost use Rattle.pungi_check.specs.UsesView.{use_view, name_use_view};
ghost use Rattle.pungi_names.specs.NamesView.{file_of};
ghost use Rattle.pungi_check.specs.Duplicates.{is_taken, is_variable_use, definition_faults, variable_faults};
ghost use Rattle.pungi_check.specs.Duplicates.{count_faults};
ghost use Rattle.pungi_types.specs.Findings.{least_from};
ghost use Rattle.pungi_types.specs.Limits.{most_functions};

use crate::name_use::{NameUse, Use};
use indexmap::IndexSet;
use pungi_base::{Memory, Name};
use pungi_names::UnitNames;
use pungi_tree::FunctionDef;
use pungi_types::{Finding, is_built_in_static, is_kept, keep, note};
use std::alloc::Global;

/// How many functions a file may define.
const MOST_FUNCTIONS: usize = 4096;

/// Whether a word is the name of a row or a built-in static.
fn is_taken(names: &UnitNames<'_>, word: Name) -> bool
    ensures { result ≡ is_taken (file_of names.now).rows word.0 }
{
    names.is_row(word) || is_built_in_static(word)
}

/// Notes the functions that are defined twice, or have the name of a row or a built-in static.
pub(crate) fn note_definitions(
    alloc: Global,
    names: &UnitNames<'_>,
    first: &mut Option<Finding>,
    functions: &Vec<&FunctionDef>,
) -> Result<(), Memory>
    ensures { OnOk result (first.new ≡ least_from first.old (definition_faults (file_of names.now) []
        (map function_view functions.now.items))) }
{
    let mut seen = IndexSet::new(alloc);
    for f in functions {
        let word = f.name;
        note(
            first,
            is_kept(&seen, word) || is_taken(names, word),
            f.pos,
            1,
        );
        keep(&mut seen, word)?;
    }
    Ok(())
}

fn is_variable_use(as_what: Use) -> bool
    ensures { result ≡ is_variable_use (use_view as_what) }
{
    match as_what {
        Use::Variable => true,
        Use::Function | Use::Table => false,
    }
}

/// Notes the variables that have the name of a row or a built-in static.
pub(crate) fn note_variables(
    names: &UnitNames<'_>,
    first: &mut Option<Finding>,
    list: &Vec<NameUse>,
)
    ensures { first.new ≡ least_from first.old (variable_faults (file_of names.now)
        (map name_use_view list.now.items)) }
{
    for u in list {
        let holds = is_variable_use(u.as_what) && is_taken(names, u.name);
        note(first, holds, u.pos, 1);
    }
}

/// Notes the first function that is too many.
#[tactic(auto, using(crate::proofs::SeenLemmas::by_number))]
pub(crate) fn note_count(first: &mut Option<Finding>, functions: &Vec<&FunctionDef>)
    ensures { first.new ≡ least_from first.old (count_faults (slice_get (map function_view functions.now.items)
        most_functions)) }
{
    if let Some(f) = functions.get(MOST_FUNCTIONS) {
        note(first, true, f.pos, 2);
    }
}
