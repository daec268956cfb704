// What a type is once typedefs are followed.
ghost use Rattle.std.specs.Prelude.{◌≡◌};
ghost use Rattle.pungi_types.specs.Kinds.{words_kind, listed_kind, only, both, is_int_key, is_long_key, is_char_key};
ghost use Rattle.pungi_types.specs.Kinds.{is_void_key, not_void, is_listed_type};
ghost use Rattle.pungi_types.specs.TypesView.{core_view};
ghost use Rattle.pungi_types.specs.Kinds.{tagged_core, written_tag, written_core};
ghost use Rattle.pungi_tree.specs.ExprView.{base_view};

use crate::ValueKind;
use pungi_base::words::{
    FIRST_TYPE, PY_MODULE_DEF, PY_OBJECT, PY_SSIZE_T, PY_TYPE_OBJECT, TYPES_END,
};
use pungi_base::{Key, Name, Pos};
use pungi_tree::{Base, Spec};

type Known = Option<ValueKind>;

/// A type without its stars.
#[derive(Clone, Copy, Debug)]
pub enum Core<'a> {
    Words(&'a [Key]),
    Listed(Name),
    Struct(Name),
    Other,
}

/// A typedef of the file.
#[derive(Clone, Copy)]
pub struct Typedef<'a> {
    pub name: Name,
    pub pos: Pos,
    pub spec: &'a Spec,
    pub stars: usize,
}

/// The kind of base words with so many stars.
pub fn words_kind(keys: &[Key], stars: usize) -> Known
    ensures { result ≡ words_kind keys.now stars }
{
    match (keys, stars) {
        ([Key::Int], 0) => Some(ValueKind::Int),
        ([Key::Long], 0) | ([Key::Long, Key::Int], 0) => Some(ValueKind::Long),
        ([Key::Void], 0) => Some(ValueKind::Void),
        ([Key::Char], 1) => Some(ValueKind::Text),
        _ => None,
    }
}

/// The kind of a type that is known before a text is read, with so many stars.
pub fn listed_kind(word: Name, stars: usize) -> Known
    ensures { result ≡ listed_kind word.0 stars }
{
    if stars == 0 && word.0 == PY_SSIZE_T {
        Some(ValueKind::Size)
    } else if stars == 1 && (word.0 == PY_OBJECT || word.0 == PY_TYPE_OBJECT) {
        Some(ValueKind::Object(None))
    } else {
        None
    }
}

/// The kind of what is declared: only a result or a cast may be of kind `Void`.
pub fn not_void(kind: Known) -> Known
    ensures { result ≡ not_void kind }
{
    match kind {
        Some(ValueKind::Void) => None,
        other => other,
    }
}

/// Whether a word is the name of a type that is known before a text is read.
pub fn is_listed_type(word: Name) -> bool
    ensures { result ≡ is_listed_type word.0 }
{
    FIRST_TYPE <= word.0 && !(TYPES_END <= word.0)
}

fn tagged_core(fielded: bool, of: Key, name: Name) -> Core<'static>
    ensures { core_view result ≡ tagged_core fielded of name }
{
    match of {
        Key::Struct if name.0 == PY_MODULE_DEF => Core::Listed(name),
        Key::Struct if fielded => Core::Struct(name),
        _ => Core::Other,
    }
}

/// The tag that a type is written with.
pub fn written_tag(base: &Base) -> Option<Name>
    ensures { result ≡ written_tag (base_view base.now) }
{
    match base {
        Base::Tagged {
            tag: Some((name, _)),
            ..
        } => Some(*name),
        Base::Tagged { tag: None, .. } => None,
        Base::Words(_) | Base::Alias(_) => None,
    }
}

/// The type that is written, where no typedef is followed: a struct by its tag only where one with that tag has fields.
pub fn written_core(fielded: bool, base: &Base) -> Core<'_>
    ensures { core_view result ≡ written_core fielded (base_view base.now) }
{
    match base {
        Base::Words(keys) => Core::Words(keys.as_slice()),
        Base::Alias(name) => {
            if is_listed_type(*name) {
                Core::Listed(*name)
            } else {
                Core::Other
            }
        }
        Base::Tagged {
            of,
            tag: Some((name, _)),
            ..
        } => tagged_core(fielded, *of, *name),
        Base::Tagged { tag: None, .. } => Core::Other,
    }
}
