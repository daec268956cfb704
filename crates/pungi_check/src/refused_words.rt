//! The names of the refused functions.
ghost use Rattle.std.specs.Prelude.{◌≡◌, [], false, get_or, IfOk, OnOk, map, if◌then◌else◌};
ghost use Rattle.pungi_declared.specs.DeclaredView.{function_view};
ghost use Rattle.pungi_types.specs.Names.{with_word};
ghost use Rattle.pungi_check.specs.Graph.{with_marked};

use indexmap::IndexSet;
use pungi_base::{Memory, Name};
use pungi_tree::FunctionDef;
use std::alloc::Global;

/// Adds a word, where it is marked.
fn add(words: &mut IndexSet<u32>, mark: bool, word: Name) -> Result<(), Memory>
    ensures { OnOk result (words.new.keys ≡ (if mark then with_word words.old.keys word.0 else words.old.keys)) }
{
    if mark {
        words.insert(word.0)?;
    }
    Ok(())
}

fn is_marked(marks: &[bool], i: usize) -> bool
    ensures { result ≡ get_or marks.now i false }
{
    i < marks.len() && marks[i]
}

/// The names of the marked functions.
pub(crate) fn refused_words(
    alloc: Global,
    list: &[&FunctionDef],
    marks: &[bool],
) -> Result<IndexSet<u32>, Memory>
    ensures { IfOk result (λ ws. ws.keys ≡ with_marked [] (map function_view list.now) marks.now) }
{
    let mut words = IndexSet::new(alloc);
    for (i, f) in list.iter().enumerate() {
        add(&mut words, is_marked(marks, i), f.name)?;
    }
    Ok(words)
}
