// Types with their typedefs followed.
ghost use Rattle.std.specs.Prelude.{◌≡◌, ℕ, nat_eq, option_map, false};
ghost use Rattle.indexmap.specs.IndexMap.{get};
ghost use Rattle.indexmap.specs.IndexSet.{contains};
ghost use Rattle.pungi_names.specs.Depth.{known, word_base, found_within, reached_within};
ghost use Rattle.pungi_names.specs.Finds.{FindsTags, reached_view};
ghost use Rattle.pungi_tree.specs.UnitView.{unit_view};
ghost use Rattle.pungi_types.specs.Kinds.{is_listed_type, written_tag, is_fielded, core_of};

use crate::step::TypedefTarget;
use crate::written::alias_of;
use indexmap::{IndexMap, IndexSet};
use pungi_base::Name;
use pungi_tree::{Base, Unit};
use pungi_types::{Core, is_listed_type, written_core, written_tag};

/// A type once typedefs are followed.
#[derive(Clone, Copy)]
pub(crate) struct Followed<'u> {
    pub(crate) core: Core<'u>,
    pub(crate) stars: usize,
}

/// The typedefs of a file, each followed to its end.
#[derive(Drop)]
pub(crate) struct Cores<'u> {
    pub(crate) unit: &'u Unit,
    /// The tags of structs with fields.
    pub(crate) tags: IndexSet<u32>,
    pub(crate) reached: IndexMap<u32, TypedefTarget<'u>>,
    /// How many typedefs the file has.
    pub(crate) count: usize,
    pub(crate) ghost tags_found: { FindsTags (contains nat_eq tags) (unit_view unit.now) },
    pub(crate) ghost followed: { (w : ℕ) → is_listed_type w ≡ false
        → found_within (option_map reached_view (get nat_eq reached w)) count
        ≡ known (core_of (unit_view unit.now) (word_base w)) },
}

impl<'u> Cores<'u> {
    ghost use Rattle.pungi_tree.specs.ExprView.{base_view};
    ghost use Rattle.pungi_names.specs.CoresView.{followed_view};

    fn word_core(&self, word: Name) -> Followed<'_>
        ensures { known (followed_view result) ≡ known (core_of (unit_view self.now.unit.now) (word_base word.0)) }
    {
        if is_listed_type(word) {
            return Followed {
                core: Core::Listed(word),
                stars: 0,
            };
        }
        match self.reached.get(&word.0) {
            Some(reached) => self.within(reached),
            None => Followed {
                core: Core::Other,
                stars: 0,
            },
        }
    }

    fn within<'a>(&self, reached: &TypedefTarget<'a>) -> Followed<'a>
        ensures { known (followed_view result) ≡ reached_within (reached_view reached.now) self.now.count }
    {
        if reached.depth <= self.count {
            Followed {
                core: reached.core,
                stars: reached.stars,
            }
        } else {
            Followed {
                core: Core::Other,
                stars: 0,
            }
        }
    }

    fn is_fielded(&self, base: &Base) -> bool
        ensures { result ≡ is_fielded (unit_view self.now.unit.now) (written_tag (base_view base.now)) }
    {
        match written_tag(base) {
            Some(tag) => self.tags.contains(&tag.0),
            None => false,
        }
    }

    /// What a type is once typedefs are followed.
    pub(crate) fn core_of<'a>(&'a self, base: &'a Base) -> Followed<'a>
        ensures { known (followed_view result) ≡ known (core_of (unit_view self.now.unit.now) (base_view base.now)) }
    {
        match alias_of(base) {
            Some(word) => self.word_core(word),
            None => Followed {
                core: written_core(self.is_fielded(base), base),
                stars: 0,
            },
        }
    }
}
