ghost use Rattle.std.specs.Prelude.{◌≡◌, ◌≤◌, length, take, false, IsTrue};
ghost use Rattle.std.specs.List.{All};
ghost use Rattle.pungi_lex.specs.Frames.{Stays};

use crate::macros::Body;
use pungi_base::{Kind, Punct, Token};

/// Whether a token begins no directive and is no macro.
fn stays(table: &Vec<Option<Body>>, token: &Token) -> bool
    ensures yes { IsTrue result → Stays table.now.items token.now }
    ensures other { result ≡ false → Stays table.now.items token.now → ⊥ }
{
    match token.kind {
        Kind::Word(name) => match table.get(name.0 as usize) {
            Some(Some(_)) => false,
            _ => true,
        },
        Kind::Punct(Punct::Hash) => !token.first,
        _ => true,
    }
}

/// How many tokens stay as they are before another comes, at most so many.
pub(crate) fn stay_count(table: &Vec<Option<Body>>, tokens: &[Token], most: usize) -> usize
    ensures stay { All (Stays table.now.items) (take result tokens.now) }
    ensures within { result ≤ length tokens.now }
    ensures few { result ≤ most }
{
    let mut count = 0usize;
    'tokens: while count < most && count < tokens.len() && stays(table, &tokens[count]) {
        count += 1;
    }
    count
}
