//! Tags of structs and unions that are defined twice.
ghost use Rattle.std.specs.Prelude.{◌≡◌, OnOk, map};
ghost use Rattle.pungi_declared.specs.DeclaredView.{tag_view};
ghost use Rattle.pungi_check.specs.SeenNames.{no_tags, tags_of, with_tag, with_some_tag, some_tag_fault, tag_faults_by};
ghost use Rattle.pungi_check.specs.SeenView.{kept_tags};
ghost use Rattle.pungi_types.specs.Findings.{least_from};
ghost use Rattle.pungi_types.specs.Kinds.{is_struct};
ghost use Rattle.pungi_types.specs.Names.{is_among};

use indexmap::IndexSet;
use pungi_base::{Key, Memory, Name, Pos};
use pungi_declared::Tag;
use pungi_types::{Finding, is_kept, keep, note};
use std::alloc::Global;

/// The tags of structs and of unions that were seen.
#[derive(Drop)]
pub struct KeptTags {
    structs: IndexSet<u32>,
    unions: IndexSet<u32>,
}

fn is_struct(of: Key) -> bool
    ensures { result ≡ is_struct of }
{
    match of {
        Key::Struct => true,
        _ => false,
    }
}

fn is_seen(seen: &KeptTags, of: Key, word: Name) -> bool
    ensures { result ≡ is_among (tags_of (kept_tags seen.now) (is_struct of)) word.0 }
{
    if is_struct(of) {
        is_kept(&seen.structs, word)
    } else {
        is_kept(&seen.unions, word)
    }
}

fn see(seen: &mut KeptTags, of: Key, word: Name) -> Result<(), Memory>
    ensures { OnOk result (kept_tags seen.new ≡ with_tag (kept_tags seen.old) (is_struct of) word.0) }
{
    if is_struct(of) {
        keep(&mut seen.structs, word)
    } else {
        keep(&mut seen.unions, word)
    }
}

fn note_tag(
    seen: &mut KeptTags,
    first: &mut Option<Finding>,
    of: Key,
    tag: Option<(Name, Pos)>,
) -> Result<(), Memory>
    ensures kept { OnOk result (kept_tags seen.new ≡ with_some_tag (kept_tags seen.old) (is_struct of) tag) }
    ensures found { OnOk result (first.new ≡ least_from first.old (some_tag_fault (kept_tags seen.old)
        (is_struct of) tag)) }
{
    match tag {
        None => Ok(()),
        Some((name, pos)) => {
            note(first, is_seen(seen, of, name), pos, 1);
            see(seen, of, name)
        }
    }
}

fn note_all(
    seen: &mut KeptTags,
    first: &mut Option<Finding>,
    list: &Vec<Tag<'_>>,
) -> Result<(), Memory>
    ensures { OnOk result (first.new ≡ least_from first.old (tag_faults_by (kept_tags seen.old)
        (map tag_view list.now.items))) }
{
    for t in list {
        note_tag(seen, first, t.of, t.tag)?;
    }
    Ok(())
}

/// Notes the tags of structs and unions that are defined twice.
pub(crate) fn note_tags(
    alloc: Global,
    first: &mut Option<Finding>,
    list: &Vec<Tag<'_>>,
) -> Result<(), Memory>
    ensures { OnOk result (first.new ≡ least_from first.old (tag_faults_by no_tags (map tag_view list.now.items))) }
{
    let mut seen = KeptTags {
        structs: IndexSet::new(alloc),
        unions: IndexSet::new(alloc),
    };
    let noted = note_all(&mut seen, first, list);
    drop(seen);
    noted
}
