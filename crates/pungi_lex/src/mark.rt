ghost use Rattle.std.specs.Prelude.{◌≡◌, ◌≤◌, ◌<◌, Some, IfSome, IsTrue, MatchOption, [], ◌∷◌, take, length};
ghost use Rattle.pungi_base.specs.Token.{punct_text};
ghost use Rattle.pungi_lex.specs.Mark.{mark_len};
ghost use Rattle.pungi_lex.specs.Start.{is_mark as mark};
ghost use Rattle.pungi_lex.specs.MarkTable.{mark_one, mark_two, mark_three, mark_at};

use crate::bytes::{is_mark, is_second_of_mark};
use pungi_base::Punct;

/// The punctuator of one byte.
#[inline(always)]
fn punct_at(a: u8) -> Punct
    requires { IsTrue (mark a) }
    ensures mark { mark_one a ≡ Some result }
    ensures spelled { punct_text result ≡ a ∷ [] }
{
    match a {
        b'(' => Punct::LeftParen,
        b')' => Punct::RightParen,
        b'[' => Punct::LeftBracket,
        b']' => Punct::RightBracket,
        b'{' => Punct::LeftBrace,
        b'}' => Punct::RightBrace,
        b';' => Punct::Semicolon,
        b',' => Punct::Comma,
        b'.' => Punct::Dot,
        b'&' => Punct::And,
        b'*' => Punct::Star,
        b'+' => Punct::Plus,
        b'-' => Punct::Minus,
        b'~' => Punct::Tilde,
        b'!' => Punct::Not,
        b'/' => Punct::Slash,
        b'%' => Punct::Percent,
        b'<' => Punct::Less,
        b'>' => Punct::Greater,
        b'^' => Punct::Caret,
        b'|' => Punct::Or,
        b'?' => Punct::Question,
        b':' => Punct::Colon,
        b'=' => Punct::Assign,
        b'#' => Punct::Hash,
        _ => unreachable!(),
    }
}

#[inline(always)]
fn mark_one(a: u8) -> Option<Punct>
    ensures mark { result ≡ mark_one a }
    ensures spelled { IfSome result (λ punct. punct_text punct ≡ a ∷ []) }
{
    if is_mark(a) { Some(punct_at(a)) } else { None }
}

#[inline(always)]
fn mark_two(a: u8, b: u8) -> Option<Punct>
    ensures mark { result ≡ mark_two a b }
    ensures spelled { IfSome result (λ punct. punct_text punct ≡ a ∷ b ∷ []) }
{
    if !is_second_of_mark(b) {
        return None;
    }
    match a {
        b'-' => match b {
            b'>' => Some(Punct::Arrow),
            b'-' => Some(Punct::MinusMinus),
            b'=' => Some(Punct::MinusAssign),
            _ => None,
        },
        b'+' => match b {
            b'+' => Some(Punct::PlusPlus),
            b'=' => Some(Punct::PlusAssign),
            _ => None,
        },
        b'<' => match b {
            b'<' => Some(Punct::ShiftLeft),
            b'=' => Some(Punct::LessEqual),
            _ => None,
        },
        b'>' => match b {
            b'>' => Some(Punct::ShiftRight),
            b'=' => Some(Punct::GreaterEqual),
            _ => None,
        },
        b'=' => match b {
            b'=' => Some(Punct::Equal),
            _ => None,
        },
        b'!' => match b {
            b'=' => Some(Punct::NotEqual),
            _ => None,
        },
        b'&' => match b {
            b'&' => Some(Punct::AndAnd),
            b'=' => Some(Punct::AndAssign),
            _ => None,
        },
        b'|' => match b {
            b'|' => Some(Punct::OrOr),
            b'=' => Some(Punct::OrAssign),
            _ => None,
        },
        b'*' => match b {
            b'=' => Some(Punct::StarAssign),
            _ => None,
        },
        b'/' => match b {
            b'=' => Some(Punct::SlashAssign),
            _ => None,
        },
        b'%' => match b {
            b'=' => Some(Punct::PercentAssign),
            _ => None,
        },
        b'^' => match b {
            b'=' => Some(Punct::CaretAssign),
            _ => None,
        },
        b'#' => match b {
            b'#' => Some(Punct::HashHash),
            _ => None,
        },
        _ => None,
    }
}

#[inline(always)]
fn mark_three(a: u8, b: u8, c: u8) -> Option<Punct>
    ensures mark { result ≡ mark_three a b c }
    ensures spelled { IfSome result (λ punct. punct_text punct ≡ a ∷ b ∷ c ∷ []) }
{
    if !is_second_of_mark(b) {
        return None;
    }
    if a == b'<' && b == b'<' && c == b'=' {
        Some(Punct::ShiftLeftAssign)
    } else if a == b'>' && b == b'>' && c == b'=' {
        Some(Punct::ShiftRightAssign)
    } else if a == b'.' && b == b'.' && c == b'.' {
        Some(Punct::Ellipsis)
    } else {
        None
    }
}

#[inline(always)]
fn mark_found(text: &[u8]) -> Option<Punct>
    ensures mark { result ≡ mark_at text.now }
    ensures spelled { IfSome result (λ punct. punct_text punct ≡ take (length (punct_text punct)) text.now) }
    ensures within { IfSome result (λ punct. length (punct_text punct) ≤ length text.now) }
    ensures some { IfSome result (λ punct. 0 < length (punct_text punct)) }
{
    match text {
        [] => None,
        [a] => mark_one(*a),
        [a, b] => match mark_two(*a, *b) {
            Some(punct) => Some(punct),
            None => mark_one(*a),
        },
        [a, b, c, ..] => match mark_three(*a, *b, *c) {
            Some(punct) => Some(punct),
            None => match mark_two(*a, *b) {
                Some(punct) => Some(punct),
                None => mark_one(*a),
            },
        },
    }
}

/// The longest punctuator at the front of a text.
#[inline(always)]
pub(crate) fn longest_mark(text: &[u8]) -> Option<Punct>
    ensures longest { MatchOption result (mark_len text.now ≡ 0) (λ punct. length (punct_text punct)
        ≡ mark_len text.now) }
    ensures spelled { IfSome result (λ punct. punct_text punct ≡ take (length (punct_text punct)) text.now) }
    ensures within { IfSome result (λ punct. length (punct_text punct) ≤ length text.now) }
    ensures some { IfSome result (λ punct. 0 < length (punct_text punct)) }
{
    mark_found(text)
}

/// How long the spelling of a punctuator is.
#[inline(always)]
pub(crate) fn punct_length(punct: Punct) -> usize
    ensures { result ≡ length (punct_text punct) }
{
    match punct {
        Punct::LeftParen => 1,
        Punct::RightParen => 1,
        Punct::LeftBracket => 1,
        Punct::RightBracket => 1,
        Punct::LeftBrace => 1,
        Punct::RightBrace => 1,
        Punct::Semicolon => 1,
        Punct::Comma => 1,
        Punct::Dot => 1,
        Punct::And => 1,
        Punct::Star => 1,
        Punct::Plus => 1,
        Punct::Minus => 1,
        Punct::Tilde => 1,
        Punct::Not => 1,
        Punct::Slash => 1,
        Punct::Percent => 1,
        Punct::Less => 1,
        Punct::Greater => 1,
        Punct::Caret => 1,
        Punct::Or => 1,
        Punct::Question => 1,
        Punct::Colon => 1,
        Punct::Assign => 1,
        Punct::Hash => 1,
        Punct::Arrow => 2,
        Punct::PlusPlus => 2,
        Punct::MinusMinus => 2,
        Punct::ShiftLeft => 2,
        Punct::ShiftRight => 2,
        Punct::LessEqual => 2,
        Punct::GreaterEqual => 2,
        Punct::Equal => 2,
        Punct::NotEqual => 2,
        Punct::AndAnd => 2,
        Punct::OrOr => 2,
        Punct::PlusAssign => 2,
        Punct::MinusAssign => 2,
        Punct::StarAssign => 2,
        Punct::SlashAssign => 2,
        Punct::PercentAssign => 2,
        Punct::AndAssign => 2,
        Punct::CaretAssign => 2,
        Punct::OrAssign => 2,
        Punct::HashHash => 2,
        Punct::ShiftLeftAssign => 3,
        Punct::ShiftRightAssign => 3,
        Punct::Ellipsis => 3,
    }
}
