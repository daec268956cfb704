//! Names of a file are gathered.
ghost use Rattle.std.specs.Prelude.{◌≡◌, ◌+◌, ◌≤◌, ℕ, None, IfOk, OnOk, length, map, option_map, nat_eq};
ghost use Rattle.indexmap.specs.IndexMap.{get, IsEmpty};
ghost use Rattle.indexmap.specs.IndexSet.{contains, IsEmpty as IsEmptySet};
ghost use Rattle.pungi_api.specs.Rows.{row_in};
ghost use Rattle.pungi_declared.specs.DeclaredView.{function_view, tag_view, variable_view};
ghost use Rattle.pungi_base.specs.Numbers.{static_count};
ghost use Rattle.pungi_names.specs.CallsView.{signature_view, function_signature};
ghost use Rattle.pungi_names.specs.FieldsView.{kind_in};
ghost use Rattle.pungi_names.specs.Limits.{most_tokens};
ghost use Rattle.pungi_names.specs.NamesView.{file_of};
ghost use Rattle.pungi_names.specs.RowsView.{call_view, row_seen};
ghost use Rattle.pungi_names.specs.StructsView.{kept_or};
ghost use Rattle.pungi_tree.specs.UnitFlat.{items_flat};
ghost use Rattle.pungi_tree.specs.UnitView.{unit_view};
ghost use Rattle.pungi_types.specs.Files.{source_file, typedefs as typedefs_of, variables_of, definitions};
ghost use Rattle.pungi_types.specs.Files.{definition_in, prototypes as prototypes_of, is_place_in, number_in};
ghost use Rattle.pungi_types.specs.Kinds.{field_in_some, struct_fields};
ghost use Rattle.pungi_types.specs.Limits.{most_statics};
ghost use Rattle.pungi_types.specs.Names.{global_kind, is_table_name, is_module, type_objects as type_objects_of};
ghost use Rattle.pungi_types.specs.Tags.{tags as tags_of};
ghost use Rattle.pungi_types.specs.TypesView.{typedef_view};

use crate::UnitNames;
use crate::fields::note_structs;
use crate::functions::{note_definitions, note_places};
use crate::globals::{note_globals, note_modules, note_tables, note_type_objects};
use crate::heads::object_structs;
use crate::kinds::Kinds;
use crate::numbers::note_numbers;
use crate::rows::{RowCall, note_row_calls};
use crate::signature::Signature;
use crate::typedefs::cores;
use crate::values::Values;
use indexmap::{IndexMap, IndexSet};
use pungi_api::{FileTerms, Table};
use pungi_base::{Memory, Names};
use pungi_declared::{Tag, Variable, prototypes, tags, typedefs, variables};
use pungi_tree::{FunctionDef, Unit};
use pungi_types::{Typedef, ValueKind};
use std::alloc::Global;

fn gather_kinds<'u>(
    alloc: Global,
    unit: &'u Unit,
    typedefs: &Vec<Typedef<'u>>,
    tags: &Vec<Tag<'u>>,
) -> Result<Kinds<'u>, Memory>
    requires typedefs { map typedef_view typedefs.now.items ≡ typedefs_of (unit_view unit.now) }
    requires tags { map tag_view tags.now.items ≡ tags_of (unit_view unit.now) }
    ensures { IfOk result (λ kinds. unit_view kinds.cores.unit.now ≡ unit_view unit.now) }
{
    let cores = cores(alloc, unit, typedefs, tags)?;
    match object_structs(alloc, &cores, typedefs, tags) {
        Ok(objects) => Ok(Kinds { cores, objects }),
        Err(memory) => {
            drop(cores);
            Err(memory)
        }
    }
}

/// What is gathered of variables and of the fields of structs.
#[derive(Drop)]
struct ValueParts {
    fields: IndexMap<u32, IndexMap<u32, Option<ValueKind>>>,
    globals: IndexMap<u32, Option<ValueKind>>,
    tables: IndexSet<u32>,
    modules: IndexSet<u32>,
    type_objects: IndexSet<u32>,
}

fn fill_values(
    alloc: Global,
    kinds: &Kinds,
    typedefs: &Vec<Typedef>,
    tags: &Vec<Tag>,
    variables: &Vec<Variable>,
    parts: &mut ValueParts,
) -> Result<(), Memory>
    requires typedefs { map typedef_view typedefs.now.items ≡ typedefs_of (unit_view kinds.now.cores.unit.now) }
    requires tags { map tag_view tags.now.items ≡ tags_of (unit_view kinds.now.cores.unit.now) }
    requires variables { map variable_view variables.now.items ≡ variables_of (unit_view kinds.now.cores.unit.now) }
    requires few { length (items_flat (unit_view kinds.now.cores.unit.now)) ≤ most_tokens }
    requires no_fields { IsEmpty parts.old.fields }
    requires no_globals { IsEmpty parts.old.globals }
    requires no_tables { IsEmptySet parts.old.tables }
    requires no_modules { IsEmptySet parts.old.modules }
    requires no_type_objects { IsEmptySet parts.old.type_objects }
    ensures fields { OnOk result ((s : ℕ) (w : ℕ)
        → kept_or (option_map (kind_in w) (get nat_eq parts.new.fields s)) None
        ≡ field_in_some (unit_view kinds.now.cores.unit.now) (struct_fields (unit_view kinds.now.cores.unit.now) s) w) }
    ensures globals { OnOk result ((w : ℕ) → kept_or (get nat_eq parts.new.globals w) None
        ≡ global_kind (unit_view kinds.now.cores.unit.now) w) }
    ensures tables { OnOk result ((w : ℕ) → contains nat_eq parts.new.tables w
        ≡ is_table_name (unit_view kinds.now.cores.unit.now) w) }
    ensures modules { OnOk result ((w : ℕ) → contains nat_eq parts.new.modules w
        ≡ is_module (unit_view kinds.now.cores.unit.now) w) }
    ensures type_objects { OnOk result (parts.new.type_objects.keys
        ≡ type_objects_of (unit_view kinds.now.cores.unit.now)) }
    ensures few { OnOk result (static_count + length parts.new.type_objects.keys ≤ most_statics) }
{
    note_structs(alloc, kinds, &mut parts.fields, typedefs, tags)?;
    note_globals(kinds, &mut parts.globals, variables)?;
    note_tables(kinds, &mut parts.tables, variables)?;
    note_modules(kinds, &mut parts.modules, variables)?;
    note_type_objects(kinds, &mut parts.type_objects, variables)
}

fn gather_values<'u>(
    alloc: Global,
    kinds: Kinds<'u>,
    typedefs: &Vec<Typedef<'u>>,
    tags: &Vec<Tag<'u>>,
    variables: &Vec<Variable<'u>>,
) -> Result<Values<'u>, Memory>
    requires typedefs { map typedef_view typedefs.now.items ≡ typedefs_of (unit_view kinds.cores.unit.now) }
    requires tags { map tag_view tags.now.items ≡ tags_of (unit_view kinds.cores.unit.now) }
    requires variables { map variable_view variables.now.items ≡ variables_of (unit_view kinds.cores.unit.now) }
    requires few { length (items_flat (unit_view kinds.cores.unit.now)) ≤ most_tokens }
    ensures { IfOk result (λ values. unit_view values.kinds.cores.unit.now ≡ unit_view kinds.entry.cores.unit.now) }
{
    let mut parts = ValueParts {
        fields: IndexMap::new(alloc),
        globals: IndexMap::new(alloc),
        tables: IndexSet::new(alloc),
        modules: IndexSet::new(alloc),
        type_objects: IndexSet::new(alloc),
    };
    match fill_values(alloc, &kinds, typedefs, tags, variables, &mut parts) {
        Ok(()) => Ok(Values {
            kinds,
            fields: parts.fields,
            globals: parts.globals,
            tables: parts.tables,
            modules: parts.modules,
            type_objects: parts.type_objects,
        }),
        Err(memory) => {
            drop(kinds);
            drop(parts);
            Err(memory)
        }
    }
}

fn typed_values<'u>(
    alloc: Global,
    unit: &'u Unit,
    typedefs: &Vec<Typedef<'u>>,
    tags: &Vec<Tag<'u>>,
) -> Result<Values<'u>, Memory>
    requires typedefs { map typedef_view typedefs.now.items ≡ typedefs_of (unit_view unit.now) }
    requires tags { map tag_view tags.now.items ≡ tags_of (unit_view unit.now) }
    requires few { length (items_flat (unit_view unit.now)) ≤ most_tokens }
    ensures { IfOk result (λ values. unit_view values.kinds.cores.unit.now ≡ unit_view unit.now) }
{
    let variables = variables(alloc, unit)?;
    let kinds = gather_kinds(alloc, unit, typedefs, tags)?;
    gather_values(alloc, kinds, typedefs, tags, &variables)
}

fn unit_values<'u>(alloc: Global, unit: &'u Unit) -> Result<Values<'u>, Memory>
    requires { length (items_flat (unit_view unit.now)) ≤ most_tokens }
    ensures { IfOk result (λ values. unit_view values.kinds.cores.unit.now ≡ unit_view unit.now) }
{
    let typedefs = typedefs(alloc, unit)?;
    let tags = tags(alloc, unit)?;
    typed_values(alloc, unit, &typedefs, &tags)
}

fn note_prototypes(alloc: Global, unit: &Unit, words: &mut IndexSet<u32>) -> Result<(), Memory>
    requires empty { IsEmptySet words.old }
    ensures { OnOk result ((w : ℕ) → contains nat_eq words.new w ≡ is_place_in (prototypes_of (unit_view unit.now)) w) }
{
    let places = prototypes(alloc, unit)?;
    note_places(words, &places)?;
    Ok(())
}

/// What is gathered of functions and of the rows of the API.
#[derive(Drop)]
struct CallParts<'u> {
    prototypes: IndexSet<u32>,
    numbers: IndexMap<u32, usize>,
    signatures: IndexMap<u32, Signature>,
    calls: IndexMap<u32, RowCall<'u>>,
}

fn fill_calls<'u>(
    alloc: Global,
    unit: &Unit,
    rows: &'u Table,
    kinds: &Kinds,
    functions: &Vec<&FunctionDef>,
    parts: &mut CallParts<'u>,
) -> Result<(), Memory>
    requires unit { unit_view kinds.now.cores.unit.now ≡ unit_view unit.now }
    requires functions { map function_view functions.now.items ≡ definitions (unit_view kinds.now.cores.unit.now) }
    requires no_prototypes { IsEmptySet parts.old.prototypes }
    requires no_numbers { IsEmpty parts.old.numbers }
    requires no_signatures { IsEmpty parts.old.signatures }
    requires no_calls { IsEmpty parts.old.calls }
    ensures prototypes { OnOk result ((w : ℕ)
        → contains nat_eq parts.new.prototypes w ≡ is_place_in (prototypes_of (unit_view kinds.now.cores.unit.now)) w) }
    ensures numbers { OnOk result ((w : ℕ) → get nat_eq parts.new.numbers w
        ≡ number_in 0 (definitions (unit_view kinds.now.cores.unit.now)) w) }
    ensures signatures { OnOk result ((w : ℕ)
        → option_map signature_view (get nat_eq parts.new.signatures w)
        ≡ option_map (function_signature (unit_view kinds.now.cores.unit.now))
        (definition_in (definitions (unit_view kinds.now.cores.unit.now)) w)) }
    ensures calls { OnOk result ((w : ℕ) → option_map call_view (get nat_eq parts.new.calls w)
        ≡ option_map row_seen (row_in rows.now w)) }
{
    note_prototypes(alloc, unit, &mut parts.prototypes)?;
    note_numbers(&mut parts.numbers, functions)?;
    note_definitions(alloc, kinds, &mut parts.signatures, functions)?;
    note_row_calls(alloc, rows, &mut parts.calls)?;
    Ok(())
}

/// Gathers the names of a file that defines these functions.
pub fn unit_names<'u>(
    alloc: Global,
    texts: &'u Names,
    unit: &'u Unit,
    rows: &'u Table,
    terms: &'u FileTerms,
    functions: &Vec<&FunctionDef>,
) -> Result<UnitNames<'u>, Memory>
    requires functions { map function_view functions.now.items ≡ definitions (unit_view unit.now) }
    requires few { length (items_flat (unit_view unit.now)) ≤ most_tokens }
    ensures { IfOk result (λ names. file_of names ≡ source_file texts.now (unit_view unit.now) rows.now terms.now) }
{
    let values = unit_values(alloc, unit)?;
    let mut parts = CallParts {
        prototypes: IndexSet::new(alloc),
        numbers: IndexMap::new(alloc),
        signatures: IndexMap::new(alloc),
        calls: IndexMap::new(alloc),
    };
    match fill_calls(alloc, unit, rows, &values.kinds, functions, &mut parts) {
        Ok(()) => Ok(UnitNames {
            values,
            rows,
            terms,
            texts,
            prototypes: parts.prototypes,
            numbers: parts.numbers,
            signatures: parts.signatures,
            calls: parts.calls,
        }),
        Err(memory) => {
            drop(values);
            drop(parts);
            Err(memory)
        }
    }
}
