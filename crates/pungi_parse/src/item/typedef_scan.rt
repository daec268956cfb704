ghost use Rattle.std.specs.Prelude.{◌≡◌, ◌∷◌, ◌≤◌, ◌<◌, ◌+◌, ◌^◌, ◌++◌, List, OnOk, IfOk, option_to_list};
ghost use Rattle.pungi_base.specs.declared.kind.Kind.{Kind as TheKind};
ghost use Rattle.pungi_parse.specs.item.TypedefScan.{copies, scan_gives};
ghost use Rattle.pungi_parse.specs.Units.{too_deep};
ghost use Rattle.pungi_tree.specs.Placed.{placed, kinds};
ghost use Rattle.pungi_tree.specs.TypeWords.{type_words};

use crate::tokens::open_brackets::{MOST_BRACKETS, brackets_after, first_deep};
use pungi_base::{Key, Kind, Memory, Name, Pos, Punct, Token};
use std::alloc::Global;

/// A scan over tokens for what their type definitions declare. A definition waits for its semicolon outside braces, and
/// the last word before it is the one declared.
#[derive(Drop)]
struct TypedefScan {
    words: Vec<Name>,
    braces: usize,
    last: Option<Name>,
    /// How many definitions wait that a word came after.
    older: usize,
    /// How many wait that no word came after, all of them after the others.
    newer: usize,
}

impl TypedefScan {
    /// One more token.
    fn read(&mut self, kind: Kind) -> Result<(), Memory>
        requires braces { self.old.braces + 1 < 2 ^ 64 }
        requires waiting { self.old.older + self.old.newer + 1 < 2 ^ 64 }
        ensures words { OnOk result ((kinds : List TheKind)
            → scan_gives self.new.words.items self.new.braces self.new.last self.new.older self.new.newer kinds
            ≡ scan_gives self.old.words.items self.old.braces self.old.last self.old.older self.old.newer
            (kind ∷ kinds)) }
        ensures braces { self.new.braces ≤ self.old.braces + 1 }
        ensures waiting { self.new.older + self.new.newer ≤ self.old.older + self.old.newer + 1 }
    {
        match kind {
            Kind::Punct(Punct::Semicolon) if self.braces == 0 => {
                add_copies(&mut self.words, self.older, self.last)?;
                self.older = 0;
                self.newer = 0;
            }
            Kind::Punct(Punct::LeftBrace) => self.braces += 1,
            Kind::Punct(Punct::RightBrace) => self.braces = self.braces.saturating_sub(1),
            Kind::Key(Key::Typedef) if self.braces == 0 => self.newer += 1,
            Kind::Word(name) => {
                self.last = Some(name);
                self.older += self.newer;
                self.newer = 0;
            }
            _ => {}
        }
        Ok(())
    }
}

/// Adds a word, where there is one, so many times.
fn add_copies(words: &mut Vec<Name>, count: usize, word: Option<Name>) -> Result<(), Memory>
    ensures { OnOk result (words.new.items ≡ words.old.items ++ copies count (option_to_list word)) }
{
    if let Some(name) = word {
        for _ in 0..count {
            words.push(name)?;
        }
    }
    Ok(())
}

/// The place of the first token after which too many brackets are open, and the words that the type definitions of a
/// file declare, both by one pass. Where there is such a token the words are left out, as they are for want of memory.
pub(crate) fn scan(alloc: Global, tokens: &[Token]) -> (Option<Pos>, Result<Vec<Name>, Memory>)
    ensures deep { result.0 ≡ too_deep 0 (placed tokens.now) }
    ensures words { IfOk result.1 (λ words. words.items ≡ type_words (kinds (placed tokens.now))) }
{
    let mut scan = TypedefScan {
        words: Vec::new(alloc),
        braces: 0,
        last: None,
        older: 0,
        newer: 0,
    };
    let mut open = 0;
    for token in tokens {
        open = brackets_after(open, token.kind);
        if open > MOST_BRACKETS {
            return (Some(token.pos), Err(Memory));
        }
        if let Err(memory) = scan.read(token.kind) {
            return (first_deep(tokens), Err(memory));
        }
    }
    let TypedefScan { words, .. } = scan;
    (None, Ok(words))
}
