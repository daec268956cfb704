// The values that stand outside functions, and the fields of structs.
ghost use Rattle.std.specs.Prelude.{◌≡◌, ◌+◌, ◌≤◌, ◌&&◌, not, nat_le, ℕ, nat_eq, option_map, None, length};
ghost use Rattle.indexmap.specs.IndexMap.{get};
ghost use Rattle.indexmap.specs.IndexSet.{contains};
ghost use Rattle.pungi_base.specs.Numbers.{static_count, first_type_object, statics_end};
ghost use Rattle.pungi_names.specs.FieldsView.{kind_in};
ghost use Rattle.pungi_names.specs.StructsView.{kept_or};
ghost use Rattle.pungi_tree.specs.UnitView.{unit_view};
ghost use Rattle.pungi_types.specs.Kinds.{field_in_some, struct_fields};
ghost use Rattle.pungi_types.specs.Limits.{most_statics};
ghost use Rattle.pungi_types.specs.Names.{global_kind, is_module, is_table_name, type_objects as type_objects_of};
ghost use Rattle.pungi_types.specs.Names.{is_plain_static};

use crate::kinds::Kinds;
use crate::meaning::Meaning;
use indexmap::{IndexMap, IndexSet};
use pungi_base::Name;
use pungi_base::words::{FIRST_STATIC, FIRST_TYPE_OBJECT, STATICS, STATICS_END};
use pungi_types::{ValueKind, is_built_in_static};

/// The variables of a file, its tables, and the fields of its structs.
#[derive(Drop)]
pub(crate) struct Values<'u> {
    pub(crate) kinds: Kinds<'u>,
    pub(crate) fields: IndexMap<u32, IndexMap<u32, Option<ValueKind>>>,
    pub(crate) globals: IndexMap<u32, Option<ValueKind>>,
    pub(crate) tables: IndexSet<u32>,
    pub(crate) modules: IndexSet<u32>,
    pub(crate) type_objects: IndexSet<u32>,
    pub(crate) ghost fields_found: { (s : ℕ) (w : ℕ)
        → kept_or (option_map (kind_in w) (get nat_eq fields s)) None
        ≡ field_in_some (unit_view kinds.cores.unit.now) (struct_fields (unit_view kinds.cores.unit.now) s) w },
    pub(crate) ghost globals_found: { (w : ℕ)
        → kept_or (get nat_eq globals w) None ≡ global_kind (unit_view kinds.cores.unit.now) w },
    pub(crate) ghost tables_found: { (w : ℕ)
        → contains nat_eq tables w ≡ is_table_name (unit_view kinds.cores.unit.now) w },
    pub(crate) ghost modules_found: { (w : ℕ)
        → contains nat_eq modules w ≡ is_module (unit_view kinds.cores.unit.now) w },
    pub(crate) ghost type_objects_found: { type_objects.keys ≡ type_objects_of (unit_view kinds.cores.unit.now) },
    pub(crate) ghost few: { static_count + length type_objects.keys ≤ most_statics },
}

/// A static that is used without `&`.
fn is_plain_static(word: Name) -> bool
    ensures { result ≡ is_plain_static word.0 }
{
    FIRST_STATIC <= word.0 && !(FIRST_TYPE_OBJECT <= word.0)
}

fn is_built_in_type_object(word: Name) -> bool
    ensures { result ≡ (nat_le first_type_object word.0 && not (nat_le statics_end word.0)) }
{
    FIRST_TYPE_OBJECT <= word.0 && !(STATICS_END <= word.0)
}

fn kind_of_field(fields: &IndexMap<u32, Option<ValueKind>>, word: Name) -> Option<ValueKind>
    ensures { result ≡ kind_in word.0 fields.now }
{
    match fields.get(&word.0) {
        Some(kind) => *kind,
        None => None,
    }
}

impl<'u> Values<'u> {
    ghost use Rattle.pungi_names.specs.MeaningView.{meaning_view};
    ghost use Rattle.pungi_types.specs.Kinds.{field_kind};
    ghost use Rattle.pungi_types.specs.Names.{is_among, is_type_object, is_static, is_own_static, static_number};
    ghost use Rattle.pungi_types.specs.Names.{static_or_unknown, place_among};

    fn field_of_struct(&self, name: Name, word: Name) -> Option<ValueKind>
        ensures { result ≡ field_in_some (unit_view self.now.kinds.cores.unit.now)
            (struct_fields (unit_view self.now.kinds.cores.unit.now) name.0) word.0 }
    {
        match self.fields.get(&name.0) {
            Some(fields) => kind_of_field(fields, word),
            None => None,
        }
    }

    /// The kind of a field of the struct of a pointer.
    pub(crate) fn field_kind(&self, base: Option<ValueKind>, word: Name) -> Option<ValueKind>
        ensures { result ≡ field_kind (unit_view self.now.kinds.cores.unit.now) base word.0 }
    {
        match base {
            Some(ValueKind::Object(Some(name))) => self.field_of_struct(name, word),
            Some(ValueKind::Object(None)) => None,
            Some(ValueKind::Int) => None,
            Some(ValueKind::Long) => None,
            Some(ValueKind::Size) => None,
            Some(ValueKind::Text) => None,
            Some(ValueKind::Null) => None,
            Some(ValueKind::Void) => None,
            None => None,
        }
    }

    /// The kind of a variable.
    pub(crate) fn global_kind(&self, word: Name) -> Option<ValueKind>
        ensures { result ≡ global_kind (unit_view self.now.kinds.cores.unit.now) word.0 }
    {
        match self.globals.get(&word.0) {
            Some(kind) => *kind,
            None => None,
        }
    }

    /// Whether a word names a table of type `PyModuleDef`.
    pub(crate) fn is_module(&self, word: Name) -> bool
        ensures { result ≡ is_module (unit_view self.now.kinds.cores.unit.now) word.0 }
    {
        self.modules.contains(&word.0)
    }

    fn has_type_object(&self, word: Name) -> bool
        ensures { result ≡ is_among (type_objects_of (unit_view self.now.kinds.cores.unit.now)) word.0 }
    {
        self.type_objects.contains(&word.0)
    }

    /// Whether a word names a type object.
    pub(crate) fn is_type_object(&self, word: Name) -> bool
        ensures { result ≡ is_type_object (unit_view self.now.kinds.cores.unit.now) word.0 }
    {
        is_built_in_type_object(word) || self.has_type_object(word)
    }

    /// Whether a word names a static object.
    pub(crate) fn is_static(&self, word: Name) -> bool
        ensures { result ≡ is_static (unit_view self.now.kinds.cores.unit.now) word.0 }
    {
        is_plain_static(word) || self.is_type_object(word)
    }

    /// How many type objects the file has.
    pub(crate) fn type_object_count(&self) -> u32
        ensures counted { result ≡ length (type_objects_of (unit_view self.now.kinds.cores.unit.now)) }
        ensures few { static_count + result ≤ most_statics }
    {
        self.type_objects.len() as u32
    }

    fn place_of(&self, word: Name) -> u32
        ensures place { result ≡ place_among (type_objects_of (unit_view self.now.kinds.cores.unit.now)) word.0 }
        ensures few { static_count + result ≤ most_statics }
    {
        match self.type_objects.get_index_of(&word.0) {
            Some(place) => place as u32,
            None => self.type_objects.len() as u32,
        }
    }

    /// The number of a static's object.
    pub(crate) fn static_number(&self, word: Name) -> u32
        ensures { result ≡ static_number (unit_view self.now.kinds.cores.unit.now) word.0 }
    {
        if is_built_in_static(word) {
            word.0 - FIRST_STATIC
        } else {
            self.place_of(word) + STATICS
        }
    }

    /// Whether a word names a static that is used without `&`, and is no table of the file.
    pub(crate) fn is_own_static(&self, word: Name) -> bool
        ensures { result ≡ is_own_static (unit_view self.now.kinds.cores.unit.now) word.0 }
    {
        is_plain_static(word) && !self.tables.contains(&word.0)
    }

    /// What a word is that names neither a function nor a variable.
    pub(crate) fn static_meaning(&self, word: Name) -> Meaning
        ensures { meaning_view result ≡ static_or_unknown (unit_view self.now.kinds.cores.unit.now) word.0 }
    {
        if self.is_own_static(word) {
            Meaning::Static(self.static_number(word))
        } else {
            Meaning::Unknown
        }
    }
}
