// What a type is, as it is written.
ghost use Rattle.std.specs.Prelude.{◌≡◌, ◌&&◌, not, if◌then◌else◌};
ghost use Rattle.pungi_names.specs.Depth.{alias_of, struct_word, own_core};
ghost use Rattle.pungi_tree.specs.ExprView.{base_view};
ghost use Rattle.pungi_types.specs.Kinds.{is_struct, struct_of, no_core, written_tag};
ghost use Rattle.pungi_types.specs.TypesView.{core_view};

use pungi_base::{Key, Name};
use pungi_tree::Base;
use pungi_types::{Core, written_core, written_tag};

/// The word that a type is.
pub(crate) fn alias_of(base: &Base) -> Option<Name>
    ensures { result ≡ alias_of (base_view base.now) }
{
    match base {
        Base::Alias(name) => Some(*name),
        Base::Words(_) => None,
        Base::Tagged { fields: None, .. } => None,
        Base::Tagged {
            fields: Some(_),
            ..
        } => None,
    }
}

/// The word by which a struct is found: its tag, or where it has none the word of its typedef.
pub(crate) fn struct_word(name: Name, base: &Base) -> Name
    ensures { result ≡ struct_word name (written_tag (base_view base.now)) }
{
    match written_tag(base) {
        Some(tag) => tag,
        None => name,
    }
}

fn untagged_core(of: Key, name: Name, is_tag: bool) -> Core<'static>
    ensures { core_view result ≡ (if is_struct of && not is_tag then struct_of name else no_core) }
{
    match of {
        Key::Struct if !is_tag => Core::Struct(name),
        _ => Core::Other,
    }
}

/// The type that a typedef of a word writes itself.
pub(crate) fn own_core(is_tag: bool, name: Name, base: &Base) -> Core<'_>
    ensures { core_view result ≡ own_core is_tag name (base_view base.now) }
{
    match base {
        Base::Tagged {
            of,
            tag: None,
            fields: Some(_),
        } => untagged_core(*of, name, is_tag),
        Base::Tagged {
            tag: None,
            fields: None,
            ..
        } => written_core(is_tag, base),
        Base::Tagged { tag: Some(_), .. } => written_core(is_tag, base),
        Base::Words(_) | Base::Alias(_) => written_core(is_tag, base),
    }
}
