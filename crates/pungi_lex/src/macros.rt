ghost use Rattle.std.specs.Prelude.{◌≡◌, ◌<◌, List, length, set, get_or, Some, None, MatchOption};
ghost use Rattle.pungi_base.specs.declared.kind.Kind.{Kind as TheKind};
ghost use Rattle.pungi_lex.specs.Macros.{word_number, body_of, replacement};

use pungi_base::Kind;
use std::marker::Model;

/// What a macro stands for.
#[derive(Drop)]
pub(crate) struct Body {
    kinds: Vec<Kind>,
}

impl Model for Body {
    ghost Value = { List TheKind };

    ghost view = { λ b. b.kinds.items };
}

impl Body {
    pub(crate) fn new(kinds: Vec<Kind>) -> Self
        ensures { result ≡ kinds.items }
    {
        Body { kinds }
    }

    pub(crate) fn as_slice(&self) -> &[Kind]
        ensures { result.now ≡ self.now }
    {
        self.kinds.as_slice()
    }

    pub(crate) fn at(&self, index: usize) -> Kind
        requires { index < length self.now }
        ensures { result ≡ get_or self.now index result }
    {
        self.kinds[index]
    }
}

/// Takes the body of a word out of the table, if it has one there.
pub(crate) fn take_body(table: &mut Vec<Option<Body>>, kind: Kind) -> Option<(u32, Body)>
    ensures { MatchOption result ((replacement table.old.items kind ≡ None) × (table.new.items ≡ table.old.items))
        (λ found. (word_number kind ≡ Some found.0) × (body_of table.old.items found.0 ≡ Some found.1)
        × (table.new.items ≡ set table.old.items found.0 None) × (found.0 < length table.old.items)) }
{
    match kind {
        Kind::Word(name) => {
            let place = name.0 as usize;
            if place < table.len() {
                match table[place].take() {
                    None => None,
                    Some(body) => Some((name.0, body)),
                }
            } else {
                None
            }
        }
        _ => None,
    }
}

/// Puts a body in the place of a name.
pub(crate) fn put_body(table: &mut Vec<Option<Body>>, name: u32, body: Body)
    ensures { table.new.items ≡ set table.old.items name (Some body) }
{
    let place = name as usize;
    if place < table.len() {
        table[place] = Some(body);
    }
}
