// The typedefs of a file are gathered and followed.
ghost use Rattle.std.specs.Prelude.{◌≡◌, ℕ, ◌==◌, ◌||◌, ◌&&◌, nat_eq, option_map, map, is_some, IfOk, OnOk};
ghost use Rattle.indexmap.specs.IndexMap.{get};
ghost use Rattle.indexmap.specs.IndexSet.{contains};
ghost use Rattle.pungi_declared.specs.DeclaredView.{tag_view};
ghost use Rattle.pungi_names.specs.Depth.{known_at};
ghost use Rattle.pungi_names.specs.Finds.{FindsTypedefs, FindsTags, reached_view};
ghost use Rattle.pungi_names.specs.Walk.{AllReach};
ghost use Rattle.pungi_tree.specs.UnitView.{unit_view};
ghost use Rattle.pungi_types.specs.Files.{typedefs as typedefs_of};
ghost use Rattle.pungi_types.specs.Kinds.{typedef_in, tagged_in, is_struct, tag_is};
ghost use Rattle.pungi_types.specs.Tags.{tags as tags_of};
ghost use Rattle.pungi_types.specs.TypesView.{typedef_view};

use crate::cores::Cores;
use crate::first::keep_first;
use crate::step::TypedefTarget;
use crate::walk::follow;
use indexmap::{IndexMap, IndexSet};
use pungi_base::{Key, Memory};
use pungi_declared::Tag;
use pungi_tree::Unit;
use pungi_types::Typedef;
use std::alloc::Global;

/// The first typedef of each word.
fn first_typedefs<'u>(
    alloc: Global,
    typedefs: &Vec<Typedef<'u>>,
) -> Result<IndexMap<u32, Typedef<'u>>, Memory>
    ensures { IfOk result (λ first. (w : ℕ) → option_map typedef_view (get nat_eq first w)
        ≡ typedef_in (map typedef_view typedefs.now.items) w) }
{
    let mut first = IndexMap::new(alloc);
    for found in typedefs {
        keep_first(&mut first, found.name.0, *found)?;
    }
    Ok(first)
}

/// Adds the tag of a struct.
fn note_tag(words: &mut IndexSet<u32>, tag: &Tag) -> Result<(), Memory>
    ensures { OnOk result ((w : ℕ) → contains nat_eq words.new w
        ≡ (contains nat_eq words.old w || (is_struct tag.now.of && tag_is tag.now.tag w))) }
{
    if let (Key::Struct, Some((name, _))) = (tag.of, tag.tag) {
        words.insert(name.0)?;
    }
    Ok(())
}

/// The tags of structs with fields.
fn struct_tags(alloc: Global, tags: &Vec<Tag>) -> Result<IndexSet<u32>, Memory>
    ensures { IfOk result (λ words. (w : ℕ) → contains nat_eq words w
        ≡ is_some (tagged_in (map tag_view tags.now.items) w)) }
{
    let mut words = IndexSet::new(alloc);
    for tag in tags {
        note_tag(&mut words, tag)?;
    }
    Ok(words)
}

/// Adds what a word reaches.
fn reach_word<'u>(
    alloc: Global,
    unit: &Unit,
    first: &IndexMap<u32, Typedef<'u>>,
    tags: &IndexSet<u32>,
    done: &mut IndexMap<u32, TypedefTarget<'u>>,
    all: &mut IndexMap<u32, TypedefTarget<'u>>,
    word: u32,
) -> Result<(), Memory>
    requires first { FindsTypedefs (get nat_eq first.now) (unit_view unit.now) }
    requires tags { FindsTags (contains nat_eq tags.now) (unit_view unit.now) }
    requires done { AllReach (known_at (unit_view unit.now)) (λ w. option_map reached_view (get nat_eq done.old w)) }
    requires all { AllReach (known_at (unit_view unit.now)) (λ w. option_map reached_view (get nat_eq all.old w)) }
    ensures done { OnOk result (AllReach (known_at (unit_view unit.now)) (λ w. option_map reached_view
        (get nat_eq done.new w))) }
    ensures all { OnOk result (AllReach (known_at (unit_view unit.now)) (λ w. option_map reached_view
        (get nat_eq all.new w))) }
    ensures words { OnOk result ((w : ℕ) → is_some (get nat_eq all.new w)
        ≡ (is_some (get nat_eq all.old w) || word == w)) }
{
    let reached = follow(alloc, unit, first, tags, done, word)?;
    all.insert(word, reached)?;
    Ok(())
}

/// Adds what the word of each typedef reaches.
fn reach_words<'u>(
    alloc: Global,
    unit: &Unit,
    typedefs: &Vec<Typedef<'u>>,
    first: &IndexMap<u32, Typedef<'u>>,
    tags: &IndexSet<u32>,
    done: &mut IndexMap<u32, TypedefTarget<'u>>,
    all: &mut IndexMap<u32, TypedefTarget<'u>>,
) -> Result<(), Memory>
    requires first { FindsTypedefs (get nat_eq first.now) (unit_view unit.now) }
    requires tags { FindsTags (contains nat_eq tags.now) (unit_view unit.now) }
    requires done { AllReach (known_at (unit_view unit.now)) (λ w. option_map reached_view (get nat_eq done.old w)) }
    requires all { AllReach (known_at (unit_view unit.now)) (λ w. option_map reached_view (get nat_eq all.old w)) }
    ensures all { OnOk result (AllReach (known_at (unit_view unit.now)) (λ w. option_map reached_view
        (get nat_eq all.new w))) }
    ensures words { OnOk result ((w : ℕ) → is_some (get nat_eq all.new w)
        ≡ (is_some (get nat_eq all.old w) || is_some (typedef_in (map typedef_view typedefs.now.items) w))) }
{
    for found in typedefs {
        reach_word(alloc, unit, first, tags, done, all, found.name.0)?;
    }
    Ok(())
}

/// What the word of each typedef reaches.
fn reached_words<'u>(
    alloc: Global,
    unit: &Unit,
    typedefs: &Vec<Typedef<'u>>,
    first: &IndexMap<u32, Typedef<'u>>,
    tags: &IndexSet<u32>,
) -> Result<IndexMap<u32, TypedefTarget<'u>>, Memory>
    requires first { FindsTypedefs (get nat_eq first.now) (unit_view unit.now) }
    requires tags { FindsTags (contains nat_eq tags.now) (unit_view unit.now) }
    ensures reach { IfOk result (λ all. AllReach (known_at (unit_view unit.now))
        (λ w. option_map reached_view (get nat_eq all w))) }
    ensures words { IfOk result (λ all. (w : ℕ)
        → is_some (get nat_eq all w) ≡ is_some (typedef_in (map typedef_view typedefs.now.items) w)) }
{
    let mut done = IndexMap::new(alloc);
    let mut all = IndexMap::new(alloc);
    let reached = reach_words(alloc, unit, typedefs, first, tags, &mut done, &mut all);
    drop(done);
    match reached {
        Ok(()) => Ok(all),
        Err(memory) => {
            drop(all);
            Err(memory)
        }
    }
}

/// The typedefs of a file, each followed to its end, where the first of each word is found at once.
fn followed_typedefs<'u>(
    alloc: Global,
    unit: &'u Unit,
    typedefs: &Vec<Typedef<'u>>,
    first: &IndexMap<u32, Typedef<'u>>,
    tags: &Vec<Tag<'u>>,
) -> Result<Cores<'u>, Memory>
    requires typedefs { map typedef_view typedefs.now.items ≡ typedefs_of (unit_view unit.now) }
    requires first { FindsTypedefs (get nat_eq first.now) (unit_view unit.now) }
    requires tags { map tag_view tags.now.items ≡ tags_of (unit_view unit.now) }
    ensures { IfOk result (λ cores. cores.unit.now ≡ unit.now) }
{
    let words = struct_tags(alloc, tags)?;
    match reached_words(alloc, unit, typedefs, first, &words) {
        Ok(reached) => Ok(Cores {
            unit,
            tags: words,
            reached,
            count: typedefs.len(),
        }),
        Err(memory) => {
            drop(words);
            Err(memory)
        }
    }
}

/// The typedefs of a file, each followed to its end.
pub(crate) fn cores<'u>(
    alloc: Global,
    unit: &'u Unit,
    typedefs: &Vec<Typedef<'u>>,
    tags: &Vec<Tag<'u>>,
) -> Result<Cores<'u>, Memory>
    requires typedefs { map typedef_view typedefs.now.items ≡ typedefs_of (unit_view unit.now) }
    requires tags { map tag_view tags.now.items ≡ tags_of (unit_view unit.now) }
    ensures { IfOk result (λ cores. cores.unit.now ≡ unit.now) }
{
    let first = first_typedefs(alloc, typedefs)?;
    let cores = followed_typedefs(alloc, unit, typedefs, &first, tags);
    drop(first);
    cores
}
