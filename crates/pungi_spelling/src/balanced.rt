ghost use Rattle.std.specs.Prelude.{◌≡◌, ◌<◌, ◌∷◌, List, length, false, IfSome, IfNone};
ghost use Rattle.pungi_base.specs.declared.punct.Punct.{Punct as Mark};
ghost use Rattle.pungi_tree.specs.Balanced.{closes, is_balanced, is_same, awaited_by, closing};

use pungi_base::{Kind, Pos, Punct};

/// The bracket that one that opens awaits.
fn awaited_by(kind: Kind) -> Option<Punct>
    ensures { result ≡ awaited_by kind }
{
    match kind {
        Kind::Punct(Punct::LeftParen) => Some(Punct::RightParen),
        Kind::Punct(Punct::LeftBracket) => Some(Punct::RightBracket),
        Kind::Punct(Punct::LeftBrace) => Some(Punct::RightBrace),
        _ => None,
    }
}

/// The bracket, where it is one that closes.
fn closing(kind: Kind) -> Option<Punct>
    ensures { result ≡ closing kind }
{
    match kind {
        Kind::Punct(Punct::RightParen) => Some(Punct::RightParen),
        Kind::Punct(Punct::RightBracket) => Some(Punct::RightBracket),
        Kind::Punct(Punct::RightBrace) => Some(Punct::RightBrace),
        _ => None,
    }
}

fn is_same(mark: Punct, other: Punct) -> bool
    ensures { result ≡ is_same mark other }
{
    matches!(
        (mark, other),
        (Punct::RightParen, Punct::RightParen)
            | (Punct::RightBracket, Punct::RightBracket)
            | (Punct::RightBrace, Punct::RightBrace)
    )
}

/// What stands after the bracket that closes a group, whose tokens come next. Groups in it are as many calls deep.
fn after_group<'a>(tokens: &'a [(Kind, Pos)], close: Punct) -> Option<&'a [(Kind, Pos)]>
    ensures shorter { IfSome result (λ rest. length rest.now < length tokens.now) }
    ensures closed { IfSome result (λ rest. (awaited : List Mark)
        → closes tokens.now (close ∷ awaited) ≡ closes rest.now awaited) }
    ensures open_still { IfNone result ((awaited : List Mark) → closes tokens.now (close ∷ awaited) ≡ false) }
{
    let mut rest = tokens;
    while let Some((token, after)) = rest.split_first() {
        if let Some(inner) = awaited_by(token.0) {
            rest = after_group(after, inner)?;
        } else if let Some(mark) = closing(token.0) {
            return if is_same(mark, close) {
                Some(after)
            } else {
                None
            };
        } else {
            rest = after;
        }
    }
    None
}

/// Whether the brackets match. It calls itself as deep as they stand in one another.
pub(crate) fn is_balanced(tokens: &[(Kind, Pos)]) -> bool
    ensures { result ≡ is_balanced tokens.now }
{
    let mut rest = tokens;
    while let Some((token, after)) = rest.split_first() {
        if let Some(inner) = awaited_by(token.0) {
            let Some(behind) = after_group(after, inner) else {
                return false;
            };
            rest = behind;
        } else if closing(token.0).is_some() {
            return false;
        } else {
            rest = after;
        }
    }
    true
}
