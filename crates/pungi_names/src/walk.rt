// A chain of typedefs is followed to its end.
ghost use Rattle.std.specs.Prelude.{◌≡◌, ℕ, ◌+◌, nat_eq, [], reverse, option_map, IfOk, OnOk};
ghost use Rattle.indexmap.specs.IndexMap.{get};
ghost use Rattle.indexmap.specs.IndexSet.{contains};
ghost use Rattle.pungi_names.specs.Depth.{known_at, Reaches};
ghost use Rattle.pungi_names.specs.Finds.{FindsTypedefs, FindsTags, reached_view};
ghost use Rattle.pungi_names.specs.Walk.{AllReach, IsPath, EndsAt};
ghost use Rattle.pungi_names.specs.WalkView.{IsWalk, one_more};
ghost use Rattle.pungi_tree.specs.UnitView.{unit_view};

use crate::step::{Step, TypedefTarget, next_step};
use indexmap::{IndexMap, IndexSet};
use pungi_base::Memory;
use pungi_tree::Unit;
use pungi_types::{Core, Typedef};
use std::alloc::Global;

/// The words that a walk came by, each with the stars that its typedef adds, the word where it ends, and what that word
/// reaches. Where the walk came by that word before, it reaches nothing.
#[derive(Drop)]
pub(crate) struct Walk<'u> {
    pub(crate) path: Vec<(u32, usize)>,
    pub(crate) at: u32,
    pub(crate) end: Option<TypedefTarget<'u>>,
}

/// Walks on to a word whose end is known, or in a circle: the word where the walk ends, and what that word reaches.
fn walk_on<'u>(
    unit: &Unit,
    typedefs: &IndexMap<u32, Typedef<'u>>,
    tags: &IndexSet<u32>,
    done: &IndexMap<u32, TypedefTarget<'u>>,
    path: &mut Vec<(u32, usize)>,
    seen: &mut IndexSet<u32>,
    start: u32,
) -> Result<(u32, Option<TypedefTarget<'u>>), Memory>
    requires typedefs { FindsTypedefs (get nat_eq typedefs.now) (unit_view unit.now) }
    requires tags { FindsTags (contains nat_eq tags.now) (unit_view unit.now) }
    requires done { AllReach (known_at (unit_view unit.now)) (λ w. option_map reached_view (get nat_eq done.now w)) }
    requires path { path.old.items ≡ [] }
    requires seen { seen.old.keys ≡ [] }
    ensures path { IfOk result (λ end. IsPath (known_at (unit_view unit.now)) start (reverse path.new.items) end.0) }
    ensures end { IfOk result (λ end. EndsAt (known_at (unit_view unit.now)) (reverse path.new.items) end.0
        (option_map reached_view end.1)) }
{
    let mut at = start;
    'words: loop {
        if let Some(found) = done.get(&at) {
            return Ok((at, Some(*found)));
        }
        if seen.contains(&at) {
            return Ok((at, None));
        }
        match next_step(unit, typedefs, tags, at) {
            Step::Ends(reached) => return Ok((at, Some(reached))),
            Step::Leads(stars, next) => {
                seen.insert(at)?;
                path.push((at, stars))?;
                at = next;
            }
        }
    }
}

/// Walks from a word to one whose end is known, or in a circle.
fn walk_from<'u>(
    alloc: Global,
    unit: &Unit,
    typedefs: &IndexMap<u32, Typedef<'u>>,
    tags: &IndexSet<u32>,
    done: &IndexMap<u32, TypedefTarget<'u>>,
    start: u32,
) -> Result<Walk<'u>, Memory>
    requires typedefs { FindsTypedefs (get nat_eq typedefs.now) (unit_view unit.now) }
    requires tags { FindsTags (contains nat_eq tags.now) (unit_view unit.now) }
    requires done { AllReach (known_at (unit_view unit.now)) (λ w. option_map reached_view (get nat_eq done.now w)) }
    ensures { IfOk result (λ walk. IsWalk (known_at (unit_view unit.now)) start walk) }
{
    let mut path: Vec<(u32, usize)> = Vec::new(alloc);
    let mut seen: IndexSet<u32> = IndexSet::new(alloc);
    let walked = walk_on(unit, typedefs, tags, done, &mut path, &mut seen, start);
    drop(seen);
    match walked {
        Ok((at, end)) => Ok(Walk { path, at, end }),
        Err(memory) => {
            drop(path);
            Err(memory)
        }
    }
}

/// What stands after one typedef more.
fn one_more(stars: usize, reached: TypedefTarget) -> Result<TypedefTarget, Memory>
    ensures { IfOk result (λ more. reached_view more ≡ one_more stars (reached_view reached.entry)) }
{
    let Some(all_stars) = reached.stars.checked_add(stars) else {
        return Err(Memory);
    };
    let Some(depth) = reached.depth.checked_add(1) else {
        return Err(Memory);
    };
    Ok(TypedefTarget {
        core: reached.core,
        stars: all_stars,
        depth,
    })
}

/// Goes back along a walk that began at a word, and keeps what each word on it reaches.
fn go_back<'u>(
    unit: &Unit,
    done: &mut IndexMap<u32, TypedefTarget<'u>>,
    start: u32,
    walked: Vec<(u32, usize)>,
    end: u32,
    end_reached: TypedefTarget<'u>,
) -> Result<TypedefTarget<'u>, Memory>
    requires path { IsPath (known_at (unit_view unit.now)) start (reverse walked.items) end }
    requires end { Reaches (known_at (unit_view unit.now)) end (reached_view end_reached) }
    requires done { AllReach (known_at (unit_view unit.now)) (λ w. option_map reached_view (get nat_eq done.old w)) }
    ensures done { OnOk result (AllReach (known_at (unit_view unit.now)) (λ w. option_map reached_view
        (get nat_eq done.new w))) }
    ensures reached { IfOk result (λ reached. Reaches (known_at (unit_view unit.now)) start (reached_view reached)) }
{
    let _ = unit;
    let _ = start;
    let mut path = walked;
    let mut at = end;
    let mut reached = end_reached;
    while let Some((word, stars)) = path.pop() {
        reached = one_more(stars, reached)?;
        done.insert(word, reached)?;
        at = word;
    }
    let _ = at;
    Ok(reached)
}

/// What a word reaches. What is found on the way is kept.
pub(crate) fn follow<'u>(
    alloc: Global,
    unit: &Unit,
    typedefs: &IndexMap<u32, Typedef<'u>>,
    tags: &IndexSet<u32>,
    done: &mut IndexMap<u32, TypedefTarget<'u>>,
    start: u32,
) -> Result<TypedefTarget<'u>, Memory>
    requires typedefs { FindsTypedefs (get nat_eq typedefs.now) (unit_view unit.now) }
    requires tags { FindsTags (contains nat_eq tags.now) (unit_view unit.now) }
    requires done { AllReach (known_at (unit_view unit.now)) (λ w. option_map reached_view (get nat_eq done.old w)) }
    ensures done { OnOk result (AllReach (known_at (unit_view unit.now)) (λ w. option_map reached_view
        (get nat_eq done.new w))) }
    ensures reached { IfOk result (λ reached. Reaches (known_at (unit_view unit.now)) start (reached_view reached)) }
{
    let walked = walk_from(alloc, unit, typedefs, tags, done, start)?;
    match walked.end {
        Some(reached) => go_back(unit, done, start, walked.path, walked.at, reached),
        None => {
            let nowhere = TypedefTarget {
                core: Core::Other,
                stars: 0,
                depth: 0,
            };
            go_back(unit, done, start, walked.path, walked.at, nowhere)
        }
    }
}
