//! Names for two of function, variable and table.
ghost use Rattle.std.specs.Prelude.{◌≡◌, OnOk, map};
ghost use Rattle.pungi_check.specs.SeenNames.{no_words, used_in, with_use, use_faults_by};
ghost use Rattle.pungi_check.specs.SeenView.{words_of};
ghost use Rattle.pungi_check.specs.UsesView.{use_view, name_use_view};
ghost use Rattle.pungi_types.specs.Findings.{least_from, when};

use crate::name_use::{NameUse, Use};
use indexmap::IndexSet;
use pungi_base::{Memory, Name};
use pungi_types::{Finding, is_kept, keep, note};
use std::alloc::Global;

/// The words that were seen as names of functions, variables and tables.
#[derive(Drop)]
pub struct KeptUses {
    functions: IndexSet<u32>,
    variables: IndexSet<u32>,
    tables: IndexSet<u32>,
}

/// Whether a word was seen as the name of something else.
fn is_used_otherwise(seen: &KeptUses, word: Name, as_what: Use) -> bool
    ensures { result ≡ used_in (words_of seen.now) word.0 (use_view as_what) }
{
    match as_what {
        Use::Function => is_kept(&seen.variables, word) || is_kept(&seen.tables, word),
        Use::Variable => is_kept(&seen.functions, word) || is_kept(&seen.tables, word),
        Use::Table => is_kept(&seen.functions, word) || is_kept(&seen.variables, word),
    }
}

/// Keeps the word of a name under its use.
fn see(seen: &mut KeptUses, word: Name, as_what: Use) -> Result<(), Memory>
    ensures { OnOk result (words_of seen.new ≡ with_use (words_of seen.old) word.0 (use_view as_what)) }
{
    match as_what {
        Use::Function => keep(&mut seen.functions, word),
        Use::Variable => keep(&mut seen.variables, word),
        Use::Table => keep(&mut seen.tables, word),
    }
}

fn note_use(seen: &mut KeptUses, first: &mut Option<Finding>, name: &NameUse) -> Result<(), Memory>
    ensures kept { OnOk result (words_of seen.new ≡ with_use (words_of seen.old) name.now.name.0
        (use_view name.now.as_what)) }
    ensures found { OnOk result (first.new ≡ least_from first.old (when (used_in (words_of seen.old) name.now.name.0
        (use_view name.now.as_what)) name.now.pos 1)) }
{
    note(
        first,
        is_used_otherwise(seen, name.name, name.as_what),
        name.pos,
        1,
    );
    see(seen, name.name, name.as_what)
}

fn note_all(
    seen: &mut KeptUses,
    first: &mut Option<Finding>,
    names: &Vec<NameUse>,
) -> Result<(), Memory>
    ensures { OnOk result (first.new ≡ least_from first.old (use_faults_by (words_of seen.old)
        (map name_use_view names.now.items))) }
{
    for name in names {
        note_use(seen, first, name)?;
    }
    Ok(())
}

/// Notes the names for two of function, variable and table.
pub(crate) fn note_uses(
    alloc: Global,
    first: &mut Option<Finding>,
    names: &Vec<NameUse>,
) -> Result<(), Memory>
    ensures { OnOk result (first.new ≡ least_from first.old (use_faults_by no_words
        (map name_use_view names.now.items))) }
{
    let mut seen = KeptUses {
        functions: IndexSet::new(alloc),
        variables: IndexSet::new(alloc),
        tables: IndexSet::new(alloc),
    };
    let noted = note_all(&mut seen, first, names);
    drop(seen);
    noted
}
