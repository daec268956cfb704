// Variables and tables outside functions.
ghost use Rattle.std.specs.Prelude.{◌≡◌, ℕ, ◌==◌, ◌&&◌, ◌||◌, nat_eq, map, List, [], Option, None, OnOk, if◌then◌else◌};
ghost use Rattle.indexmap.specs.IndexMap.{get, IsEmpty};
ghost use Rattle.indexmap.specs.IndexSet.{contains, IsEmpty as IsEmptySet};
ghost use Rattle.pungi_declared.specs.DeclaredView.{variable_view};
ghost use Rattle.pungi_names.specs.GlobalsView.{global_else};
ghost use Rattle.pungi_names.specs.StructsView.{kept_or};
ghost use Rattle.pungi_tree.specs.UnitView.{unit_view};
ghost use Rattle.pungi_types.specs.Files.{declr_name, variables_of};
ghost use Rattle.pungi_types.specs.Names.{global_kind, is_table_name, is_module, type_objects as type_objects_of};
ghost use Rattle.pungi_types.specs.Names.{is_single, is_table, with_word};
ghost use Rattle.pungi_types.specs.declared.kind.ValueKind.{ValueKind as Kind};

use crate::first::keep_first;
use crate::kinds::Kinds;
use crate::tables::{is_single, is_table};
use indexmap::{IndexMap, IndexSet};
use pungi_base::words::{PY_MODULE_DEF, PY_TYPE_OBJECT};
use pungi_base::{Memory, Name};
use pungi_declared::Variable;
use pungi_types::ValueKind;

#[tactic(auto, using(crate::proofs::SpecLemmas::views))]
fn note_global(
    kinds: &Kinds,
    globals: &mut IndexMap<u32, Option<ValueKind>>,
    variable: &Variable,
) -> Result<(), Memory>
    ensures { OnOk result ((w : ℕ) (r : Option Kind)
        → kept_or (get nat_eq globals.new w) r ≡ kept_or (get nat_eq globals.old w)
        (global_else (unit_view kinds.now.cores.unit.now) (variable_view variable.now) w r)) }
{
    if !is_table(&kinds.cores, variable.spec, variable.declr) {
        let kind = kinds.declared_kind(variable.spec, variable.declr);
        keep_first(globals, variable.declr.name.0, kind)?;
    }
    Ok(())
}

/// Adds the kinds of the variables that are no tables to none.
pub(crate) fn note_globals(
    kinds: &Kinds,
    globals: &mut IndexMap<u32, Option<ValueKind>>,
    variables: &Vec<Variable>,
) -> Result<(), Memory>
    requires variables { map variable_view variables.now.items ≡ variables_of (unit_view kinds.now.cores.unit.now) }
    requires empty { IsEmpty globals.old }
    ensures { OnOk result ((w : ℕ) → kept_or (get nat_eq globals.new w) None
        ≡ global_kind (unit_view kinds.now.cores.unit.now) w) }
{
    for variable in variables {
        note_global(kinds, globals, variable)?;
    }
    Ok(())
}

#[tactic(auto, using(crate::proofs::SpecLemmas::views))]
fn note_table(kinds: &Kinds, tables: &mut IndexSet<u32>, variable: &Variable) -> Result<(), Memory>
    ensures { OnOk result ((w : ℕ) → contains nat_eq tables.new w
        ≡ (contains nat_eq tables.old w || ((declr_name (variable_view variable.now).declr).0 == w
        && is_table (unit_view kinds.now.cores.unit.now) (variable_view variable.now)))) }
{
    if is_table(&kinds.cores, variable.spec, variable.declr) {
        tables.insert(variable.declr.name.0)?;
    }
    Ok(())
}

/// Adds the names of tables to none.
pub(crate) fn note_tables(
    kinds: &Kinds,
    tables: &mut IndexSet<u32>,
    variables: &Vec<Variable>,
) -> Result<(), Memory>
    requires variables { map variable_view variables.now.items ≡ variables_of (unit_view kinds.now.cores.unit.now) }
    requires empty { IsEmptySet tables.old }
    ensures { OnOk result ((w : ℕ) → contains nat_eq tables.new w
        ≡ is_table_name (unit_view kinds.now.cores.unit.now) w) }
{
    for variable in variables {
        note_table(kinds, tables, variable)?;
    }
    Ok(())
}

#[tactic(auto, using(crate::proofs::SpecLemmas::views))]
fn note_module(
    kinds: &Kinds,
    modules: &mut IndexSet<u32>,
    variable: &Variable,
) -> Result<(), Memory>
    ensures { OnOk result ((w : ℕ) → contains nat_eq modules.new w
        ≡ (contains nat_eq modules.old w || ((declr_name (variable_view variable.now).declr).0 == w
        && is_single (unit_view kinds.now.cores.unit.now) PY_MODULE_DEF (variable_view variable.now)))) }
{
    if is_single(
        &kinds.cores,
        Name(PY_MODULE_DEF),
        variable.spec,
        variable.declr,
    ) {
        modules.insert(variable.declr.name.0)?;
    }
    Ok(())
}

/// Adds the tables of type `PyModuleDef` to none.
pub(crate) fn note_modules(
    kinds: &Kinds,
    modules: &mut IndexSet<u32>,
    variables: &Vec<Variable>,
) -> Result<(), Memory>
    requires variables { map variable_view variables.now.items ≡ variables_of (unit_view kinds.now.cores.unit.now) }
    requires empty { IsEmptySet modules.old }
    ensures { OnOk result ((w : ℕ) → contains nat_eq modules.new w ≡ is_module (unit_view kinds.now.cores.unit.now) w) }
{
    for variable in variables {
        note_module(kinds, modules, variable)?;
    }
    Ok(())
}

#[tactic(auto, using(crate::proofs::SpecLemmas::views))]
fn note_type_object(
    kinds: &Kinds,
    objects: &mut IndexSet<u32>,
    variable: &Variable,
) -> Result<(), Memory>
    ensures { OnOk result (objects.new.keys ≡ (if is_single (unit_view kinds.now.cores.unit.now) PY_TYPE_OBJECT
        (variable_view variable.now) then with_word objects.old.keys (declr_name (variable_view variable.now).declr).0
        else objects.old.keys)) }
{
    if is_single(
        &kinds.cores,
        Name(PY_TYPE_OBJECT),
        variable.spec,
        variable.declr,
    ) {
        objects.insert(variable.declr.name.0)?;
    }
    Ok(())
}

/// Adds the static type objects to none, in the order of their first declarations.
pub(crate) fn note_type_objects(
    kinds: &Kinds,
    objects: &mut IndexSet<u32>,
    variables: &Vec<Variable>,
) -> Result<(), Memory>
    requires variables { map variable_view variables.now.items ≡ variables_of (unit_view kinds.now.cores.unit.now) }
    requires empty { IsEmptySet objects.old }
    ensures { OnOk result (objects.new.keys ≡ type_objects_of (unit_view kinds.now.cores.unit.now)) }
{
    for variable in variables {
        note_type_object(kinds, objects, variable)?;
    }
    Ok(())
}
