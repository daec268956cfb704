//! The fault of a file.
ghost use Rattle.std.specs.Prelude.{◌≡◌, OnOk, IfOk, [], map};
ghost use Rattle.pungi_declared.specs.DeclaredView.{function_view};
ghost use Rattle.pungi_names.specs.NamesView.{file_of};
ghost use Rattle.pungi_tree.specs.UnitView.{unit_view};
ghost use Rattle.pungi_check.specs.Duplicates.{faults, use_faults, uses, variable_faults, typedef_faults, tag_faults};
ghost use Rattle.pungi_types.specs.Files.{typedefs, definitions};
ghost use Rattle.pungi_types.specs.Findings.{◌and◌, least, least_from};
ghost use Rattle.pungi_types.specs.Tags.{tags};

use crate::defined::{note_count, note_definitions, note_variables};
use crate::seen_tags::note_tags;
use crate::seen_uses::note_uses;
use crate::typedef_words::note_typedefs;
use crate::unit_uses::uses;
use pungi_base::Memory;
use pungi_declared::{tags, typedefs};
use pungi_names::UnitNames;
use pungi_tree::{FunctionDef, Unit};
use pungi_types::Finding;
use std::alloc::Global;

#[tactic(auto, using(crate::proofs::SeenLemmas::by_names))]
fn note_names(
    alloc: Global,
    names: &UnitNames<'_>,
    first: &mut Option<Finding>,
    unit: &Unit,
) -> Result<(), Memory>
    ensures { OnOk result (first.new ≡ least_from first.old (use_faults []
        (uses (file_of names.now).items (unit_view unit.now))
        and variable_faults (file_of names.now) (uses (file_of names.now).items (unit_view unit.now)))) }
{
    let list = uses(alloc, names, unit)?;
    note_uses(alloc, first, &list)?;
    note_variables(names, first, &list);
    Ok(())
}

#[tactic(auto, using(crate::proofs::SeenLemmas::by_names))]
fn note_types(alloc: Global, first: &mut Option<Finding>, unit: &Unit) -> Result<(), Memory>
    ensures { OnOk result (first.new ≡ least_from first.old (typedef_faults [] (typedefs (unit_view unit.now))
        and tag_faults [] (tags (unit_view unit.now)))) }
{
    let words = typedefs(alloc, unit)?;
    note_typedefs(alloc, first, &words)?;
    let found = tags(alloc, unit)?;
    note_tags(alloc, first, &found)?;
    Ok(())
}

/// The fault of a file, the first in its text: a name that it may not use twice (1; C11 6.2.3, 6.7, 6.9), or the first
/// function past the 4,096th (2). `None` where there is no fault.
pub(crate) fn faults(
    alloc: Global,
    names: &UnitNames<'_>,
    unit: &Unit,
    functions: &Vec<&FunctionDef>,
) -> Result<Option<Finding>, Memory>
    requires unit { unit_view unit.now ≡ (file_of names.now).items }
    requires listed { map function_view functions.now.items ≡ definitions (file_of names.now).items }
    ensures { IfOk result (λ told. told ≡ least (faults (file_of names.now))) }
{
    let mut first = None;
    note_definitions(alloc, names, &mut first, functions)?;
    note_names(alloc, names, &mut first, unit)?;
    note_types(alloc, &mut first, unit)?;
    note_count(&mut first, functions);
    Ok(first)
}
