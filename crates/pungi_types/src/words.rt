//! Words that are kept to be found again, and those of the built-in statics.
ghost use Rattle.std.specs.Prelude.{◌≡◌, OnOk};
ghost use Rattle.pungi_types.specs.Names.{is_among, with_word, is_built_in_static};

use indexmap::IndexSet;
use pungi_base::words::{FIRST_STATIC, STATICS_END};
use pungi_base::{Memory, Name};

/// Whether a word is among these.
pub fn is_kept(words: &IndexSet<u32>, word: Name) -> bool
    ensures { result ≡ is_among words.now.keys word.0 }
{
    words.contains(&word.0)
}

/// Keeps a word.
pub fn keep(words: &mut IndexSet<u32>, word: Name) -> Result<(), Memory>
    ensures { OnOk result (words.new.keys ≡ with_word words.old.keys word.0) }
{
    words.insert(word.0)?;
    Ok(())
}

/// Whether a word names a static that is there whatever a file declares.
pub fn is_built_in_static(word: Name) -> bool
    ensures { result ≡ is_built_in_static word.0 }
{
    FIRST_STATIC <= word.0 && !(STATICS_END <= word.0)
}
