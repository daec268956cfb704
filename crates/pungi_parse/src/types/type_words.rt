ghost use Rattle.std.specs.Prelude.{◌≡◌, ◌==◌, true, if◌then◌else◌, ℕ, List, OnOk, IfOk, false, slice_index_or};
ghost use Rattle.pungi_base.specs.declared.names.Name.{Name as TheName};
ghost use Rattle.pungi_tree.specs.TypeWords.{is_among, is_type};

use pungi_base::words::{KEYWORDS, MACROS, TYPE_WORDS};
use pungi_base::{Memory, Name};
use std::alloc::Global;
use std::marker::Model;

/// The words that the type definitions of a file declare (C11 6.7.8), with a mark at the number of each.
#[derive(Drop)]
pub(crate) struct TypeWords {
    words: Vec<Name>,
    marks: Vec<bool>,
}

impl Model for TypeWords {
    ghost Value = { List TheName };

    ghost view = { λ t. t.words.items };

    ghost invariant = { λ t. (w : TheName) → slice_index_or t.marks.items w.0 false ≡ is_among t.words.items w };
}

impl TypeWords {
    /// These type words.
    pub(crate) fn new(alloc: Global, words: Vec<Name>) -> Result<Self, Memory>
        ensures { IfOk result (λ types. types ≡ words.items) }
    {
        let marks = marks_at(alloc, &words)?;
        Ok(TypeWords { words, marks })
    }

    /// Whether a word is a type word, by one look at its mark.
    pub(crate) fn is_type(&self, name: Name) -> bool
        ensures { result ≡ is_type self.now name }
    {
        if KEYWORDS + MACROS <= name.0 && name.0 < KEYWORDS + MACROS + TYPE_WORDS {
            return true;
        }
        match self.marks.get(name.0 as usize) {
            Some(mark) => *mark,
            None => false,
        }
    }
}

/// A mark for each number up to the greatest of these words, set at theirs.
fn marks_at(alloc: Global, words: &[Name]) -> Result<Vec<bool>, Memory>
    ensures { IfOk result (λ marks. (w : TheName) → slice_index_or marks.items w.0 false ≡ is_among words.now w) }
{
    let mut marks = Vec::new(alloc);
    for word in words {
        mark(&mut marks, word.0 as usize)?;
    }
    Ok(marks)
}

/// Sets the mark at a number.
fn mark(marks: &mut Vec<bool>, number: usize) -> Result<(), Memory>
    ensures { OnOk result ((k : ℕ) → slice_index_or marks.new.items k false
        ≡ (if k == number then true else slice_index_or marks.old.items k false)) }
{
    'room: while marks.len() <= number {
        marks.push(false)?;
    }
    marks[number] = true;
    Ok(())
}
