// One typedef is followed.
ghost use Rattle.std.specs.Prelude.{◌≡◌, ℕ, nat_eq, Some, false};
ghost use Rattle.indexmap.specs.IndexMap.{get};
ghost use Rattle.indexmap.specs.IndexSet.{contains};
ghost use Rattle.pungi_names.specs.Depth.{known_at};
ghost use Rattle.pungi_names.specs.Finds.{FindsTypedefs, FindsTags, IsStep};
ghost use Rattle.pungi_tree.specs.UnitView.{unit_view};
ghost use Rattle.pungi_types.specs.Files.{typedefs as typedefs_of};
ghost use Rattle.pungi_types.specs.Kinds.{typedef_in, is_listed_type};
ghost use Rattle.pungi_types.specs.TypesView.{typedef_view};

use crate::written::{alias_of, own_core, struct_word};
use indexmap::{IndexMap, IndexSet};
use pungi_base::Name;
use pungi_tree::Unit;
use pungi_types::{Core, Typedef, is_listed_type};

/// What the word of a typedef stands for, and how many typedefs lead there.
#[derive(Clone, Copy)]
pub(crate) struct TypedefTarget<'u> {
    pub(crate) core: Core<'u>,
    pub(crate) stars: usize,
    pub(crate) depth: usize,
}

/// What a word is at once, or the word that it leads to with so many stars more.
#[derive(Clone, Copy)]
pub(crate) enum Step<'u> {
    Ends(TypedefTarget<'u>),
    Leads(usize, u32),
}

fn typedef_step<'u>(unit: &Unit, tags: &IndexSet<u32>, word: u32, found: &Typedef<'u>) -> Step<'u>
    requires unlisted { is_listed_type word ≡ false }
    requires found { typedef_in (typedefs_of (unit_view unit.now)) word ≡ Some (typedef_view found.now) }
    requires tags { FindsTags (contains nat_eq tags.now) (unit_view unit.now) }
    ensures { IsStep (known_at (unit_view unit.now)) word result }
{
    let _ = unit;
    let _ = word;
    match alias_of(&found.spec.base) {
        Some(next) => Step::Leads(found.stars, next.0),
        None => Step::Ends(TypedefTarget {
            core: own_core(
                tags.contains(&struct_word(found.name, &found.spec.base).0),
                found.name,
                &found.spec.base,
            ),
            stars: found.stars,
            depth: 1,
        }),
    }
}

/// What a word is, where at most one typedef is followed.
pub(crate) fn next_step<'u>(
    unit: &Unit,
    typedefs: &IndexMap<u32, Typedef<'u>>,
    tags: &IndexSet<u32>,
    word: u32,
) -> Step<'u>
    requires typedefs { FindsTypedefs (get nat_eq typedefs.now) (unit_view unit.now) }
    requires tags { FindsTags (contains nat_eq tags.now) (unit_view unit.now) }
    ensures { IsStep (known_at (unit_view unit.now)) word result }
{
    if is_listed_type(Name(word)) {
        return Step::Ends(TypedefTarget {
            core: Core::Listed(Name(word)),
            stars: 0,
            depth: 0,
        });
    }
    match typedefs.get(&word) {
        Some(found) => typedef_step(unit, tags, word, found),
        None => Step::Ends(TypedefTarget {
            core: Core::Other,
            stars: 0,
            depth: 0,
        }),
    }
}
