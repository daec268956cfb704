ghost use Rattle.std.specs.Prelude.{◌≡◌, ◌<◌, length, IfSome, option_map};
ghost use Rattle.pungi_parse.specs.tokens.OneToken.{eat, eat_key, eat_word, eat_text, eat_listed, eat_literal};
ghost use Rattle.pungi_parse.specs.tokens.OneToken.{eat_prefix, eat_operator, eat_assign, eat_step};
ghost use Rattle.pungi_tree.specs.ExprView.{expr_view};
ghost use Rattle.pungi_tree.specs.Operators as operators;
ghost use Rattle.pungi_tree.specs.Placed.{placed, first_place};

use crate::tokens::operators;
use crate::tokens::same_token::{is_same_key, is_same_punct};
use pungi_base::{Key, Kind, Name, Pos, Punct, Token};
use pungi_tree::{Expr, ExprNode};

/// The place of the first token.
pub(crate) fn first_place(tokens: &[Token]) -> Option<Pos>
    ensures { result ≡ first_place (placed tokens.now) }
{
    let (first, _) = tokens.split_first()?;
    Some(first.pos)
}

/// A punctuator at the front: its place, and the tokens after it.
pub(crate) fn eat<'a>(mark: Punct, tokens: &'a [Token]) -> Option<(Pos, &'a [Token])>
    ensures token { option_map (λ x. (x.0, placed x.1.now)) result ≡ eat mark (placed tokens.now) }
    ensures shorter { IfSome result (λ x. length x.1.now < length tokens.now) }
{
    let (first, rest) = tokens.split_first()?;
    match first.kind {
        Kind::Punct(found) => is_same_punct(mark, found).then_some((first.pos, rest)),
        _ => None,
    }
}

/// A keyword at the front: its place, and the tokens after it.
pub(crate) fn eat_key<'a>(key: Key, tokens: &'a [Token]) -> Option<(Pos, &'a [Token])>
    ensures token { option_map (λ x. (x.0, placed x.1.now)) result ≡ eat_key key (placed tokens.now) }
    ensures shorter { IfSome result (λ x. length x.1.now < length tokens.now) }
{
    let (first, rest) = tokens.split_first()?;
    match first.kind {
        Kind::Key(found) => is_same_key(key, found).then_some((first.pos, rest)),
        _ => None,
    }
}

/// A word at the front: its name, its place, and the tokens after it.
pub(crate) fn eat_word(tokens: &[Token]) -> Option<(Name, Pos, &[Token])>
    ensures token { option_map (λ x. (x.0, x.1, placed x.2.now)) result ≡ eat_word (placed tokens.now) }
    ensures shorter { IfSome result (λ x. length x.2.now < length tokens.now) }
{
    let (first, rest) = tokens.split_first()?;
    match first.kind {
        Kind::Word(name) => Some((name, first.pos, rest)),
        _ => None,
    }
}

/// A text at the front: its name, its place, and the tokens after it.
pub(crate) fn eat_text(tokens: &[Token]) -> Option<(Name, Pos, &[Token])>
    ensures token { option_map (λ x. (x.0, x.1, placed x.2.now)) result ≡ eat_text (placed tokens.now) }
    ensures shorter { IfSome result (λ x. length x.2.now < length tokens.now) }
{
    let (first, rest) = tokens.split_first()?;
    match first.kind {
        Kind::Text(name) => Some((name, first.pos, rest)),
        _ => None,
    }
}

/// A qualifier at the front, its place, and the tokens after it.
pub(crate) fn eat_qualifier(tokens: &[Token]) -> Option<(Key, Pos, &[Token])>
    ensures token { option_map (λ x. (x.0, x.1, placed x.2.now)) result
        ≡ eat_listed operators.is_qualifier (placed tokens.now) }
    ensures shorter { IfSome result (λ x. length x.2.now < length tokens.now) }
{
    let (first, rest) = tokens.split_first()?;
    match first.kind {
        Kind::Key(key) => operators::is_qualifier(key).then_some((key, first.pos, rest)),
        _ => None,
    }
}

/// A keyword of a type at the front, its place, and the tokens after it.
pub(crate) fn eat_base_word(tokens: &[Token]) -> Option<(Key, Pos, &[Token])>
    ensures token { option_map (λ x. (x.0, x.1, placed x.2.now)) result
        ≡ eat_listed operators.is_base_word (placed tokens.now) }
    ensures shorter { IfSome result (λ x. length x.2.now < length tokens.now) }
{
    let (first, rest) = tokens.split_first()?;
    match first.kind {
        Kind::Key(key) => operators::is_base_word(key).then_some((key, first.pos, rest)),
        _ => None,
    }
}

/// `struct` or `union` at the front, its place, and the tokens after it.
pub(crate) fn eat_aggregate(tokens: &[Token]) -> Option<(Key, Pos, &[Token])>
    ensures token { option_map (λ x. (x.0, x.1, placed x.2.now)) result
        ≡ eat_listed operators.is_aggregate (placed tokens.now) }
    ensures shorter { IfSome result (λ x. length x.2.now < length tokens.now) }
{
    let (first, rest) = tokens.split_first()?;
    match first.kind {
        Kind::Key(key) => operators::is_aggregate(key).then_some((key, first.pos, rest)),
        _ => None,
    }
}

/// A constant or `NULL` at the front, as the expression that it is, and the tokens after it.
pub(crate) fn eat_literal(tokens: &[Token]) -> Option<(Expr, &[Token])>
    ensures token { option_map (λ x. (expr_view x.0, placed x.1.now)) result ≡ eat_literal (placed tokens.now) }
    ensures shorter { IfSome result (λ x. length x.1.now < length tokens.now) }
{
    let (first, rest) = tokens.split_first()?;
    let node = match first.kind {
        Kind::Int {
            value,
            long,
            unsigned,
        } => ExprNode::Int {
            value,
            long,
            unsigned,
        },
        Kind::Float => ExprNode::Float,
        Kind::Char(byte) => ExprNode::Char(byte),
        Kind::Key(Key::Null) => ExprNode::Null,
        _ => return None,
    };
    Some((
        Expr {
            pos: first.pos,
            node,
        },
        rest,
    ))
}

/// A prefix operator but `sizeof` at the front, its place, and the tokens after it.
pub(crate) fn eat_prefix(tokens: &[Token]) -> Option<(Punct, Pos, &[Token])>
    ensures token { option_map (λ x. (x.0, x.1, placed x.2.now)) result ≡ eat_prefix (placed tokens.now) }
    ensures shorter { IfSome result (λ x. length x.2.now < length tokens.now) }
{
    let (first, rest) = tokens.split_first()?;
    match first.kind {
        Kind::Punct(mark) => {
            if operators::prefix_need(mark) <= 14 {
                Some((mark, first.pos, rest))
            } else {
                None
            }
        }
        _ => None,
    }
}

/// A binary operator of at least a level at the front, its place, and the tokens after it.
pub(crate) fn eat_operator(level: u32, tokens: &[Token]) -> Option<(Punct, Pos, &[Token])>
    ensures token { option_map (λ x. (x.0, x.1, placed x.2.now)) result
        ≡ eat_operator level (placed tokens.now) }
    ensures shorter { IfSome result (λ x. length x.2.now < length tokens.now) }
{
    let (first, rest) = tokens.split_first()?;
    match first.kind {
        Kind::Punct(mark) => {
            let found = operators::binary_level(mark);
            if level <= found && found <= 12 {
                Some((mark, first.pos, rest))
            } else {
                None
            }
        }
        _ => None,
    }
}

/// An operator of assignment at the front, its place, and the tokens after it.
pub(crate) fn eat_assign(tokens: &[Token]) -> Option<(Punct, Pos, &[Token])>
    ensures token { option_map (λ x. (x.0, x.1, placed x.2.now)) result ≡ eat_assign (placed tokens.now) }
    ensures shorter { IfSome result (λ x. length x.2.now < length tokens.now) }
{
    let (first, rest) = tokens.split_first()?;
    match first.kind {
        Kind::Punct(mark) => operators::is_assign(mark).then_some((mark, first.pos, rest)),
        _ => None,
    }
}

/// `++` or `--` at the front, its place, and the tokens after it.
pub(crate) fn eat_step(tokens: &[Token]) -> Option<(Punct, Pos, &[Token])>
    ensures token { option_map (λ x. (x.0, x.1, placed x.2.now)) result ≡ eat_step (placed tokens.now) }
    ensures shorter { IfSome result (λ x. length x.2.now < length tokens.now) }
{
    let (first, rest) = tokens.split_first()?;
    match first.kind {
        Kind::Punct(mark) => operators::is_step(mark).then_some((mark, first.pos, rest)),
        _ => None,
    }
}
