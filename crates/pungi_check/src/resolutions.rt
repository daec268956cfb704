//! What each function does in which no rule holds.
ghost use Rattle.std.specs.Prelude.{◌≡◌, Some, IfOk, map, true};
ghost use Rattle.std.specs.List.{list_all};
ghost use Rattle.pungi_check.specs.Found.{is_sound_function};
ghost use Rattle.pungi_declared.specs.DeclaredView.{function_view};
ghost use Rattle.pungi_names.specs.NamesView.{file_of};
ghost use Rattle.pungi_resolve.specs.Resolutions.{resolution_of, resolution_view};
ghost use Rattle.pungi_types.specs.Files.{AreOwn, definitions, definition_in};
ghost use Rattle.pungi_types.specs.Functions.{refusal};
ghost use Rattle.pungi_types.specs.Refused.{Holds};
ghost use Rattle.pungi_types.specs.TypesView.{definition_view};

use indexmap::IndexSet;
use pungi_base::Memory;
use pungi_names::{FileNames, UnitNames};
use pungi_resolve::resolve;
use pungi_resolved::Function;
use pungi_tree::FunctionDef;
use pungi_types::Finding;
use std::alloc::Global;

/// What a function does, where it has no finding: each of its words and operators has a meaning.
fn resolution(
    alloc: Global,
    names: &UnitNames<'_>,
    refused: &IndexSet<u32>,
    f: &FunctionDef,
    finding: Option<Finding>,
) -> Result<Option<Function>, Memory>
    requires own { definition_in (definitions (file_of names.now).items) (definition_view f.now).name.0
        ≡ Some (definition_view f.now) }
    requires others { Holds (file_of names.now) refused.now.keys }
    requires found { finding ≡ refusal (file_of names.now) refused.now.keys (definition_view f.now) }
    ensures function { IfOk result (λ r. resolution_view r
        ≡ resolution_of (file_of names.now) refused.now.keys (definition_view f.now)) }
    ensures sound { IfOk result (λ r. is_sound_function (resolution_view r) ≡ true) }
{
    if finding.is_some() {
        return Ok(None);
    }
    let here = FileNames {
        names,
        refused,
        own: f.name,
    };
    let terms = names.terms().of(alloc, f.name)?;
    let function = resolve(alloc, &here, terms, f)?;
    Ok(Some(function))
}

/// What the functions of a list do, where these are their findings. Each word and operator in them has a meaning.
pub(crate) fn resolutions(
    alloc: Global,
    names: &UnitNames<'_>,
    refused: &IndexSet<u32>,
    list: &[&FunctionDef],
    refusals: &[Option<Finding>],
) -> Result<Vec<Option<Function>>, Memory>
    requires own { AreOwn (definitions (file_of names.now).items) (map function_view list.now) }
    requires others { Holds (file_of names.now) refused.now.keys }
    requires found { refusals.now ≡ map (refusal (file_of names.now) refused.now.keys) (map function_view list.now) }
    ensures functions { IfOk result (λ all. map resolution_view all.items
        ≡ map (resolution_of (file_of names.now) refused.now.keys) (map function_view list.now)) }
    ensures sound { IfOk result (λ all. list_all is_sound_function (map resolution_view all.items) ≡ true) }
{
    let mut all = Vec::new(alloc);
    for (i, f) in list.iter().enumerate() {
        let function = resolution(alloc, names, refused, f, refusals[i])?;
        all.push(function)?;
    }
    Ok(all)
}
