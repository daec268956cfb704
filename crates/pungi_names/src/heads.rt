// Which structs are objects: those whose first field is the head of an object.
ghost use Rattle.std.specs.Prelude.{◌≡◌, ℕ, ◌==◌, ◌&&◌, nat_eq, map, Some, None, false, OnOk, IfOk, if◌then◌else◌};
ghost use Rattle.indexmap.specs.IndexMap.{get};
ghost use Rattle.pungi_declared.specs.DeclaredView.{tag_view};
ghost use Rattle.pungi_names.specs.First.{or_first};
ghost use Rattle.pungi_names.specs.StructsView.{fields_list, first_declr, field_head, head_kept, typedef_head, kept_or};
ghost use Rattle.pungi_tree.specs.ExprView.{base_view, declr_view, declrs_of, field_view};
ghost use Rattle.pungi_tree.specs.UnitView.{unit_view};
ghost use Rattle.pungi_types.specs.Files.{typedefs as typedefs_of};
ghost use Rattle.pungi_types.specs.Kinds.{begins_with_head, is_head as is_head_of, untagged_fields, is_struct, tag_is};
ghost use Rattle.pungi_types.specs.Kinds.{tagged_in, typedef_in, is_object_struct};
ghost use Rattle.pungi_types.specs.Tags.{tags as tags_of};
ghost use Rattle.pungi_types.specs.TypesView.{typedef_view};

use crate::cores::Cores;
use crate::first::keep_first;
use crate::tables::is_head;
use indexmap::IndexMap;
use pungi_base::{Key, Memory};
use pungi_declared::Tag;
use pungi_tree::{Base, Declr, Field, Spec};
use pungi_types::Typedef;
use std::alloc::Global;

fn is_first_head(cores: &Cores, spec: &Spec, declrs: &Vec<Declr>) -> bool
    ensures { result ≡ is_head_of (unit_view cores.now.unit.now) (first_declr (base_view spec.now.base)
        (declrs_of (map declr_view declrs.now.items))) }
{
    match declrs.as_slice() {
        [] => false,
        [first, ..] => is_head(cores, spec, first),
    }
}

fn field_head(cores: &Cores, field: &Field) -> Option<bool>
    ensures { result ≡ field_head (unit_view cores.now.unit.now) (field_view field.now) }
{
    match field {
        Field::Empty => None,
        Field::Members { spec, declrs, .. } => Some(is_first_head(cores, spec, declrs)),
    }
}

#[tactic(auto, using(crate::proofs::StructLemmas::head_step))]
fn begins_with_head(cores: &Cores, fields: &Vec<Field>) -> bool
    ensures { result ≡ begins_with_head (unit_view cores.now.unit.now) (Some (fields_list fields.now)) }
{
    for field in fields {
        if let Some(is_head) = field_head(cores, field) {
            return is_head;
        }
    }
    false
}

fn note_tag(cores: &Cores, objects: &mut IndexMap<u32, bool>, tag: &Tag) -> Result<(), Memory>
    ensures { OnOk result ((w : ℕ) → get nat_eq objects.new w
        ≡ or_first (get nat_eq objects.old w) (head_kept (unit_view cores.now.unit.now)
        (if is_struct tag.now.of && tag_is tag.now.tag w then Some (tag_view tag.now).fields else None))) }
{
    if let (Key::Struct, Some((name, _))) = (tag.of, tag.tag) {
        keep_first(objects, name.0, begins_with_head(cores, tag.fields))?;
    }
    Ok(())
}

fn note_tags(
    cores: &Cores,
    objects: &mut IndexMap<u32, bool>,
    tags: &Vec<Tag>,
) -> Result<(), Memory>
    ensures { OnOk result ((w : ℕ) → get nat_eq objects.new w
        ≡ or_first (get nat_eq objects.old w) (head_kept (unit_view cores.now.unit.now)
        (tagged_in (map tag_view tags.now.items) w))) }
{
    for tag in tags {
        note_tag(cores, objects, tag)?;
    }
    Ok(())
}

fn is_untagged_head(cores: &Cores, of: Key, fields: &Vec<Field>) -> bool
    ensures { result ≡ begins_with_head (unit_view cores.now.unit.now) (if is_struct of then Some
        (fields_list fields.now) else None) }
{
    match of {
        Key::Struct => begins_with_head(cores, fields),
        _ => false,
    }
}

#[tactic(auto, using(crate::proofs::SpecLemmas::views))]
fn is_untagged_object(cores: &Cores, base: &Base) -> bool
    ensures { result ≡ begins_with_head (unit_view cores.now.unit.now) (untagged_fields (base_view base.now)) }
{
    match base {
        Base::Tagged {
            of,
            tag: None,
            fields: Some(fields),
        } => is_untagged_head(cores, *of, fields),
        Base::Tagged {
            tag: None,
            fields: None,
            ..
        } => false,
        Base::Tagged {
            tag: Some(_),
            fields: None,
            ..
        } => false,
        Base::Tagged {
            tag: Some(_),
            fields: Some(_),
            ..
        } => false,
        Base::Words(_) => false,
        Base::Alias(_) => false,
    }
}

fn note_typedefs(
    cores: &Cores,
    objects: &mut IndexMap<u32, bool>,
    typedefs: &Vec<Typedef>,
) -> Result<(), Memory>
    ensures { OnOk result ((w : ℕ) → get nat_eq objects.new w
        ≡ or_first (get nat_eq objects.old w) (typedef_head (unit_view cores.now.unit.now)
        (typedef_in (map typedef_view typedefs.now.items) w))) }
{
    for found in typedefs {
        keep_first(
            objects,
            found.name.0,
            is_untagged_object(cores, &found.spec.base),
        )?;
    }
    Ok(())
}

/// The structs that are objects.
pub(crate) fn object_structs(
    alloc: Global,
    cores: &Cores,
    typedefs: &Vec<Typedef>,
    tags: &Vec<Tag>,
) -> Result<IndexMap<u32, bool>, Memory>
    requires typedefs { map typedef_view typedefs.now.items ≡ typedefs_of (unit_view cores.now.unit.now) }
    requires tags { map tag_view tags.now.items ≡ tags_of (unit_view cores.now.unit.now) }
    ensures { IfOk result (λ objects. (w : ℕ)
        → kept_or (get nat_eq objects w) false ≡ is_object_struct (unit_view cores.now.unit.now) w) }
{
    let mut objects = IndexMap::new(alloc);
    note_tags(cores, &mut objects, tags)?;
    note_typedefs(cores, &mut objects, typedefs)?;
    Ok(objects)
}
