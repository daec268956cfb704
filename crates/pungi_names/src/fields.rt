// The kinds of the fields of structs.
ghost use Rattle.std.specs.Prelude.{◌≡◌, ℕ, ◌==◌, ◌&&◌, nat_eq, map, option_map, Option, Some, None, OnOk, IfOk};
ghost use Rattle.std.specs.Prelude.{if◌then◌else◌};
ghost use Rattle.indexmap.specs.IndexMap.{get, IsEmpty};
ghost use Rattle.pungi_declared.specs.DeclaredView.{tag_view};
ghost use Rattle.pungi_names.specs.First.{or_first};
ghost use Rattle.pungi_names.specs.FieldsView.{kind_in};
ghost use Rattle.pungi_names.specs.StructsView.{fields_list, field_or, fields_kept, typedef_kept, kept_or};
ghost use Rattle.pungi_tree.specs.ExprView.{base_view, declr_view, declrs_of, field_view, spec_view};
ghost use Rattle.pungi_tree.specs.UnitView.{unit_view};
ghost use Rattle.pungi_types.specs.Files.{typedefs as typedefs_of};
ghost use Rattle.pungi_types.specs.Kinds.{field_in, field_in_some, member_kind, declr_named, untagged_fields};
ghost use Rattle.pungi_types.specs.Kinds.{is_struct, tag_is, tagged_in, typedef_in, struct_fields};
ghost use Rattle.pungi_types.specs.Tags.{tags as tags_of};
ghost use Rattle.pungi_types.specs.TypesView.{typedef_view};
ghost use Rattle.pungi_types.specs.declared.kind.ValueKind.{ValueKind as Kind};

use crate::first::keep_first;
use crate::kinds::Kinds;
use indexmap::IndexMap;
use pungi_base::{Key, Memory};
use pungi_declared::Tag;
use pungi_tree::{Base, Declr, Field, Spec};
use pungi_types::{Typedef, ValueKind};
use std::alloc::Global;

/// Adds the fields that are declared together.
#[tactic(auto, using(crate::proofs::SpecLemmas::views))]
fn note_declrs(
    kinds: &Kinds,
    fields: &mut IndexMap<u32, Option<ValueKind>>,
    spec: &Spec,
    declrs: &Vec<Declr>,
) -> Result<(), Memory>
    ensures { OnOk result ((w : ℕ) (r : Option Kind)
        → kept_or (get nat_eq fields.new w) r ≡ kept_or (get nat_eq fields.old w)
        (member_kind (unit_view kinds.now.cores.unit.now) (spec_view spec.now)
        (declr_named (declrs_of (map declr_view declrs.now.items)) w) r)) }
{
    for declr in declrs {
        keep_first(fields, declr.name.0, kinds.declared_kind(spec, declr))?;
    }
    Ok(())
}

/// Adds the fields of a line.
fn note_field(
    kinds: &Kinds,
    fields: &mut IndexMap<u32, Option<ValueKind>>,
    field: &Field,
) -> Result<(), Memory>
    ensures { OnOk result ((w : ℕ) (r : Option Kind)
        → kept_or (get nat_eq fields.new w) r ≡ kept_or (get nat_eq fields.old w)
        (field_or (unit_view kinds.now.cores.unit.now) (field_view field.now) w r)) }
{
    match field {
        Field::Empty => Ok(()),
        Field::Members { spec, declrs, .. } => {
            note_declrs(kinds, fields, spec, declrs)?;
            Ok(())
        }
    }
}

/// Adds these fields.
#[tactic(auto, using(crate::proofs::StructLemmas::field_step))]
fn note_fields(
    kinds: &Kinds,
    found: &mut IndexMap<u32, Option<ValueKind>>,
    fields: &Vec<Field>,
) -> Result<(), Memory>
    ensures { OnOk result ((w : ℕ) → kept_or (get nat_eq found.new w) None
        ≡ kept_or (get nat_eq found.old w) (field_in (unit_view kinds.now.cores.unit.now) (fields_list fields.now) w)) }
{
    for field in fields {
        note_field(kinds, found, field)?;
    }
    Ok(())
}

fn field_kinds(
    alloc: Global,
    kinds: &Kinds,
    fields: &Vec<Field>,
) -> Result<IndexMap<u32, Option<ValueKind>>, Memory>
    ensures { IfOk result (λ found. (w : ℕ) → kind_in w found
        ≡ field_in (unit_view kinds.now.cores.unit.now) (fields_list fields.now) w) }
{
    let mut found = IndexMap::new(alloc);
    note_fields(kinds, &mut found, fields)?;
    Ok(found)
}

fn note_tag(
    alloc: Global,
    kinds: &Kinds,
    structs: &mut IndexMap<u32, IndexMap<u32, Option<ValueKind>>>,
    tag: &Tag,
) -> Result<(), Memory>
    ensures { OnOk result ((s : ℕ) (w : ℕ) → option_map (kind_in w) (get nat_eq structs.new s)
        ≡ or_first (option_map (kind_in w) (get nat_eq structs.old s)) (fields_kept
        (unit_view kinds.now.cores.unit.now) (if is_struct tag.now.of
        && tag_is tag.now.tag s then Some (tag_view tag.now).fields else None) w)) }
{
    if let (Key::Struct, Some((name, _))) = (tag.of, tag.tag) {
        let found = field_kinds(alloc, kinds, tag.fields)?;
        keep_first(structs, name.0, found)?;
    }
    Ok(())
}

fn note_tags(
    alloc: Global,
    kinds: &Kinds,
    structs: &mut IndexMap<u32, IndexMap<u32, Option<ValueKind>>>,
    tags: &Vec<Tag>,
) -> Result<(), Memory>
    ensures { OnOk result ((s : ℕ) (w : ℕ) → option_map (kind_in w) (get nat_eq structs.new s)
        ≡ or_first (option_map (kind_in w) (get nat_eq structs.old s)) (fields_kept
        (unit_view kinds.now.cores.unit.now) (tagged_in (map tag_view tags.now.items) s) w)) }
{
    for tag in tags {
        note_tag(alloc, kinds, structs, tag)?;
    }
    Ok(())
}

fn untagged_head_kinds(
    alloc: Global,
    kinds: &Kinds,
    of: Key,
    fields: &Vec<Field>,
) -> Result<IndexMap<u32, Option<ValueKind>>, Memory>
    ensures { IfOk result (λ found. (w : ℕ) → kind_in w found
        ≡ field_in_some (unit_view kinds.now.cores.unit.now) (if is_struct of then Some (fields_list fields.now) else
        None) w) }
{
    match of {
        Key::Struct => field_kinds(alloc, kinds, fields),
        _ => Ok(IndexMap::new(alloc)),
    }
}

/// The kinds of the fields of the struct without a tag that a typedef writes.
#[tactic(auto, using(crate::proofs::SpecLemmas::views))]
fn untagged_kinds(
    alloc: Global,
    kinds: &Kinds,
    base: &Base,
) -> Result<IndexMap<u32, Option<ValueKind>>, Memory>
    ensures { IfOk result (λ found. (w : ℕ) → kind_in w found
        ≡ field_in_some (unit_view kinds.now.cores.unit.now) (untagged_fields (base_view base.now)) w) }
{
    match base {
        Base::Tagged {
            of,
            tag: None,
            fields: Some(fields),
        } => untagged_head_kinds(alloc, kinds, *of, fields),
        Base::Tagged {
            tag: None,
            fields: None,
            ..
        } => Ok(IndexMap::new(alloc)),
        Base::Tagged {
            tag: Some(_),
            fields: None,
            ..
        } => Ok(IndexMap::new(alloc)),
        Base::Tagged {
            tag: Some(_),
            fields: Some(_),
            ..
        } => Ok(IndexMap::new(alloc)),
        Base::Words(_) => Ok(IndexMap::new(alloc)),
        Base::Alias(_) => Ok(IndexMap::new(alloc)),
    }
}

#[tactic(auto, using(crate::proofs::SpecLemmas::views))]
fn note_typedef(
    alloc: Global,
    kinds: &Kinds,
    structs: &mut IndexMap<u32, IndexMap<u32, Option<ValueKind>>>,
    found: &Typedef,
) -> Result<(), Memory>
    ensures { OnOk result ((s : ℕ) (w : ℕ) → option_map (kind_in w) (get nat_eq structs.new s)
        ≡ or_first (option_map (kind_in w) (get nat_eq structs.old s)) (typedef_kept
        (unit_view kinds.now.cores.unit.now) (if found.now.name.0 == s then Some (typedef_view found.now) else None)
        w)) }
{
    let fields = untagged_kinds(alloc, kinds, &found.spec.base)?;
    keep_first(structs, found.name.0, fields)?;
    Ok(())
}

fn note_typedefs(
    alloc: Global,
    kinds: &Kinds,
    structs: &mut IndexMap<u32, IndexMap<u32, Option<ValueKind>>>,
    typedefs: &Vec<Typedef>,
) -> Result<(), Memory>
    ensures { OnOk result ((s : ℕ) (w : ℕ) → option_map (kind_in w) (get nat_eq structs.new s)
        ≡ or_first (option_map (kind_in w) (get nat_eq structs.old s)) (typedef_kept
        (unit_view kinds.now.cores.unit.now) (typedef_in (map typedef_view typedefs.now.items) s) w)) }
{
    for found in typedefs {
        note_typedef(alloc, kinds, structs, found)?;
    }
    Ok(())
}

/// Adds the kinds of the fields of each struct to none, by the word that names it.
pub(crate) fn note_structs(
    alloc: Global,
    kinds: &Kinds,
    structs: &mut IndexMap<u32, IndexMap<u32, Option<ValueKind>>>,
    typedefs: &Vec<Typedef>,
    tags: &Vec<Tag>,
) -> Result<(), Memory>
    requires typedefs { map typedef_view typedefs.now.items ≡ typedefs_of (unit_view kinds.now.cores.unit.now) }
    requires tags { map tag_view tags.now.items ≡ tags_of (unit_view kinds.now.cores.unit.now) }
    requires empty { IsEmpty structs.old }
    ensures { OnOk result ((s : ℕ) (w : ℕ) → kept_or (option_map (kind_in w) (get nat_eq structs.new s)) None
        ≡ field_in_some (unit_view kinds.now.cores.unit.now) (struct_fields (unit_view kinds.now.cores.unit.now) s) w) }
{
    note_tags(alloc, kinds, structs, tags)?;
    note_typedefs(alloc, kinds, structs, typedefs)?;
    Ok(())
}
