ghost use Rattle.std.specs.Prelude.{◌≡◌, [], ◌∷◌, ◌++◌, OnOk, map};
ghost use Rattle.pungi_declared.specs.DeclaredView.{tag_view};

use pungi_base::{Key, Memory, Name, Pos};
use pungi_tree::Field;

/// A struct or union with fields: the word before its tag, its tag with its place, and its fields (C11 6.7.2.1).
#[derive(Clone, Copy)]
pub struct Tag<'u> {
    pub of: Key,
    pub tag: Option<(Name, Pos)>,
    pub fields: &'u Vec<Field>,
}

/// Adds a struct or union to a list, at its end.
pub(crate) fn put<'u>(out: &mut Vec<Tag<'u>>, tag: Tag<'u>) -> Result<(), Memory>
    ensures { OnOk result (map tag_view out.new.items ≡ map tag_view out.old.items ++ tag_view tag.entry ∷ []) }
{
    out.push(tag)?;
    Ok(())
}
