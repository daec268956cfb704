ghost use Rattle.std.specs.Prelude.{◌≡◌, map};
ghost use Rattle.pungi_tree.specs.TypeWords.{is_known_type, is_type};
ghost use Rattle.pungi_tree.specs.UnitLevels.{typedef_names};
ghost use Rattle.pungi_tree.specs.UnitView.{item_view};

use pungi_base::Name;
use pungi_base::words::{KEYWORDS, MACROS, TYPE_WORDS};
use pungi_tree::Item;

fn is_known_type(name: Name) -> bool
    ensures { result ≡ is_known_type name }
{
    KEYWORDS + MACROS <= name.0 && name.0 < KEYWORDS + MACROS + TYPE_WORDS
}

/// Whether a word is a type word of a file with these items. It looks through the items, since it takes no memory.
pub(crate) fn is_type(file: &[Item], name: Name) -> bool
    ensures { result ≡ is_type (typedef_names (map item_view file.now)) name }
{
    if is_known_type(name) {
        return true;
    }
    for item in file {
        if let Item::Typedef { name: declared, .. } = item
            && declared.0 == name.0
        {
            return true;
        }
    }
    false
}
