// Kinds of types.
ghost use Rattle.std.specs.Prelude.{◌≡◌, ℕ, ◌+◌, nat_eq, false};
ghost use Rattle.indexmap.specs.IndexMap.{get};
ghost use Rattle.pungi_names.specs.StructsView.{kept_or};
ghost use Rattle.pungi_tree.specs.UnitView.{unit_view};
ghost use Rattle.pungi_types.specs.Kinds.{is_object_struct};

use crate::cores::{Cores, Followed};
use indexmap::IndexMap;
use pungi_base::Name;
use pungi_tree::{Declr, ParamDeclr, Spec};
use pungi_types::{Core, ValueKind, is_plain, listed_kind, not_void, words_kind};

type Known = Option<ValueKind>;

/// The types of a file: its typedefs, and which of its structs are objects.
#[derive(Drop)]
pub(crate) struct Kinds<'u> {
    pub(crate) cores: Cores<'u>,
    pub(crate) objects: IndexMap<u32, bool>,
    pub(crate) ghost objects_found: { (w : ℕ)
        → kept_or (get nat_eq objects w) false ≡ is_object_struct (unit_view cores.unit.now) w },
}

impl<'u> Kinds<'u> {
    ghost use Rattle.pungi_names.specs.CoresView.{followed_view};
    ghost use Rattle.pungi_tree.specs.ExprView.{spec_view, declr_view, param_declr_view};
    ghost use Rattle.pungi_types.specs.Calls.{param_kind};
    ghost use Rattle.pungi_types.specs.Kinds.{core_kind, type_kind, declared_kind, spec_base};

    fn is_object(&self, word: Name) -> bool
        ensures { result ≡ is_object_struct (unit_view self.now.cores.unit.now) word.0 }
    {
        match self.objects.get(&word.0) {
            Some(is_object) => *is_object,
            None => false,
        }
    }

    fn followed_kind(&self, followed: &Followed, stars: usize) -> Known
        ensures { result ≡ core_kind (unit_view self.now.cores.unit.now) (followed_view followed.now).core stars }
    {
        match followed.core {
            Core::Words(keys) => words_kind(keys, stars),
            Core::Listed(name) => listed_kind(name, stars),
            Core::Struct(name) => {
                if stars == 1 && self.is_object(name) {
                    Some(ValueKind::Object(Some(name)))
                } else {
                    None
                }
            }
            Core::Other => None,
        }
    }

    fn starred_kind(&self, followed: &Followed, stars: usize) -> Known
        ensures { result ≡ core_kind (unit_view self.now.cores.unit.now) (followed_view followed.now).core
            ((followed_view followed.now).stars + stars) }
    {
        match followed.stars.checked_add(stars) {
            Some(all) => self.followed_kind(followed, all),
            None => None,
        }
    }

    /// The kind of a type with so many stars.
    pub(crate) fn type_kind(&self, spec: &Spec, stars: usize) -> Known
        ensures { result ≡ type_kind (unit_view self.now.cores.unit.now) (spec_base (spec_view spec.now)) stars }
    {
        let followed = self.cores.core_of(&spec.base);
        self.starred_kind(&followed, stars)
    }

    /// The kind of what is declared. An array, a pointer to a function and `void` have none.
    pub(crate) fn declared_kind(&self, spec: &Spec, declr: &Declr) -> Known
        ensures { result ≡ declared_kind (unit_view self.now.cores.unit.now) (spec_view spec.now)
            (declr_view declr.now) }
    {
        if is_plain(declr) {
            not_void(self.type_kind(spec, declr.stars.len()))
        } else {
            None
        }
    }

    /// The kind of a parameter.
    pub(crate) fn param_kind(&self, spec: &Spec, declr: &ParamDeclr) -> Known
        ensures { result ≡ param_kind (unit_view self.now.cores.unit.now) (spec_view spec.now)
            (param_declr_view declr.now) }
    {
        match declr {
            ParamDeclr::Named(named) => self.declared_kind(spec, named),
            ParamDeclr::Bare(stars) => not_void(self.type_kind(spec, stars.len())),
            ParamDeclr::Unused { stars, .. } => not_void(self.type_kind(spec, stars.len())),
        }
    }
}
