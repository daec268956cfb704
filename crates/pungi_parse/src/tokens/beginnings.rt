ghost use Rattle.std.specs.Prelude.{◌≡◌, ◌<◌, length, IfSome, option_map};
ghost use Rattle.pungi_parse.specs.types.TypeReader.{type_word, plain_word, begins_type, begins_decl, begins_name};
ghost use Rattle.pungi_parse.specs.types.TypeReader.{dots_front, void_front, unused_front};
ghost use Rattle.pungi_parse.specs.ReaderParts.{function_front, goes_on, sizeof_front};
ghost use Rattle.pungi_parse.specs.expr.ExprReader.{new_front, cast_front};
ghost use Rattle.pungi_tree.specs.Placed.{placed};

use crate::tokens::one_token::{
    eat, eat_aggregate, eat_base_word, eat_key, eat_qualifier, eat_step, eat_word,
};
use crate::types::type_words::TypeWords;
use pungi_base::words::{PY_OBJECT_NEW, PY_UNUSED};
use pungi_base::{Key, Name, Pos, Punct, Token};

/// A type word at the front: its name, its place, and the tokens after it.
#[tactic(auto, unfolding(crate::specs::types::TypeReader::type_word, crate::specs::Reading::chain, crate::specs::Reading::when))]
pub(crate) fn type_word<'a>(
    types: &TypeWords,
    tokens: &'a [Token],
) -> Option<(Name, Pos, &'a [Token])>
    ensures token { option_map (λ x. (x.0, x.1, placed x.2.now)) result ≡ type_word types.now (placed tokens.now) }
    ensures shorter { IfSome result (λ x. length x.2.now < length tokens.now) }
{
    let (name, pos, rest) = eat_word(tokens)?;
    if types.is_type(name) {
        Some((name, pos, rest))
    } else {
        None
    }
}

/// A word that is no type word at the front: its name, its place, and the tokens after it.
#[tactic(auto, unfolding(crate::specs::types::TypeReader::plain_word, crate::specs::Reading::chain, crate::specs::Reading::unless))]
pub(crate) fn plain_word<'a>(
    types: &TypeWords,
    tokens: &'a [Token],
) -> Option<(Name, Pos, &'a [Token])>
    ensures token { option_map (λ x. (x.0, x.1, placed x.2.now)) result ≡ plain_word types.now (placed tokens.now) }
    ensures shorter { IfSome result (λ x. length x.2.now < length tokens.now) }
{
    let (name, pos, rest) = eat_word(tokens)?;
    if types.is_type(name) {
        None
    } else {
        Some((name, pos, rest))
    }
}

/// Whether a type begins here.
#[tactic(auto, unfolding(crate::specs::types::TypeReader::begins_type))]
pub(crate) fn begins_type(types: &TypeWords, tokens: &[Token]) -> bool
    ensures { result ≡ begins_type types.now (placed tokens.now) }
{
    eat_base_word(tokens).is_some()
        || eat_aggregate(tokens).is_some()
        || type_word(types, tokens).is_some()
}

/// Whether a declaration begins here.
#[tactic(auto, unfolding(crate::specs::types::TypeReader::begins_decl))]
pub(crate) fn begins_decl(types: &TypeWords, tokens: &[Token]) -> bool
    ensures { result ≡ begins_decl types.now (placed tokens.now) }
{
    eat_qualifier(tokens).is_some() || begins_type(types, tokens)
}

/// Whether a declared name, or the parenthesis of a pointer to a function, stands here.
#[tactic(auto, unfolding(crate::specs::types::TypeReader::begins_name))]
pub(crate) fn begins_name(tokens: &[Token]) -> bool
    ensures { result ≡ begins_name (placed tokens.now) }
{
    eat_word(tokens).is_some() || eat(Punct::LeftParen, tokens).is_some()
}

/// `PyObject_New (` before a type: its place, and the tokens after the parenthesis.
#[tactic(auto, unfolding(crate::specs::expr::ExprReader::new_front, crate::specs::Reading::chain, crate::specs::Reading::when))]
pub(crate) fn new_front<'a>(types: &TypeWords, tokens: &'a [Token]) -> Option<(Pos, &'a [Token])>
    ensures token { option_map (λ x. (x.0, placed x.1.now)) result ≡ new_front types.now (placed tokens.now) }
    ensures shorter { IfSome result (λ x. length x.1.now < length tokens.now) }
{
    let (name, pos, rest) = plain_word(types, tokens)?;
    if name.0 != PY_OBJECT_NEW {
        return None;
    }
    let (_, inner) = eat(Punct::LeftParen, rest)?;
    if begins_type(types, inner) {
        Some((pos, inner))
    } else {
        None
    }
}

/// The parenthesis before a type: its place, and the tokens after it.
#[tactic(auto, unfolding(crate::specs::expr::ExprReader::cast_front, crate::specs::Reading::chain, crate::specs::Reading::when))]
pub(crate) fn cast_front<'a>(types: &TypeWords, tokens: &'a [Token]) -> Option<(Pos, &'a [Token])>
    ensures token { option_map (λ x. (x.0, placed x.1.now)) result ≡ cast_front types.now (placed tokens.now) }
    ensures shorter { IfSome result (λ x. length x.1.now < length tokens.now) }
{
    let (pos, inner) = eat(Punct::LeftParen, tokens)?;
    if begins_type(types, inner) {
        Some((pos, inner))
    } else {
        None
    }
}

/// `Py_UNUSED (`: the word, the place of the parenthesis, and the tokens after it.
#[tactic(auto, unfolding(crate::specs::types::TypeReader::unused_front, crate::specs::Reading::chain, crate::specs::Reading::when))]
pub(crate) fn unused_front<'a>(
    types: &TypeWords,
    tokens: &'a [Token],
) -> Option<(Name, Pos, &'a [Token])>
    ensures token { option_map (λ x. (x.0, x.1, placed x.2.now)) result ≡ unused_front types.now (placed tokens.now) }
    ensures shorter { IfSome result (λ x. length x.2.now < length tokens.now) }
{
    let (name, _, rest) = plain_word(types, tokens)?;
    if name.0 != PY_UNUSED {
        return None;
    }
    let (pos, inner) = eat(Punct::LeftParen, rest)?;
    Some((name, pos, inner))
}

/// `, ...`: the place of the dots, and the tokens after them.
#[tactic(auto, unfolding(crate::specs::types::TypeReader::dots_front, crate::specs::Reading::chain))]
pub(crate) fn dots_front(tokens: &[Token]) -> Option<(Pos, &[Token])>
    ensures token { option_map (λ x. (x.0, placed x.1.now)) result ≡ dots_front (placed tokens.now) }
    ensures shorter { IfSome result (λ x. length x.1.now < length tokens.now) }
{
    let (_, rest) = eat(Punct::Comma, tokens)?;
    eat(Punct::Ellipsis, rest)
}

/// The lone `void` before the closing parenthesis: the place of the parenthesis, and the tokens after it.
#[tactic(auto, unfolding(crate::specs::types::TypeReader::void_front, crate::specs::Reading::chain))]
pub(crate) fn void_front(tokens: &[Token]) -> Option<(Pos, &[Token])>
    ensures token { option_map (λ x. (x.0, placed x.1.now)) result ≡ void_front (placed tokens.now) }
    ensures shorter { IfSome result (λ x. length x.1.now < length tokens.now) }
{
    let (_, rest) = eat_key(Key::Void, tokens)?;
    eat(Punct::RightParen, rest)
}

/// `( * word ) (`, which begins a pointer to a function: the word, its place, and the tokens after it all.
#[tactic(auto, unfolding(crate::specs::ReaderParts::function_front, crate::specs::Reading::chain))]
pub(crate) fn function_front<'a>(
    types: &TypeWords,
    tokens: &'a [Token],
) -> Option<(Name, Pos, &'a [Token])>
    ensures token { option_map (λ x. (x.0, x.1, placed x.2.now)) result ≡ function_front types.now (placed tokens.now) }
    ensures shorter { IfSome result (λ x. length x.2.now < length tokens.now) }
{
    let (_, rest) = eat(Punct::LeftParen, tokens)?;
    let (_, rest) = eat(Punct::Star, rest)?;
    let (name, pos, rest) = plain_word(types, rest)?;
    let (_, rest) = eat(Punct::RightParen, rest)?;
    let (_, inner) = eat(Punct::LeftParen, rest)?;
    Some((name, pos, inner))
}

/// Whether something stands here that goes on with a postfix expression.
#[tactic(auto, unfolding(crate::specs::ReaderParts::goes_on))]
pub(crate) fn goes_on(tokens: &[Token]) -> bool
    ensures { result ≡ goes_on (placed tokens.now) }
{
    eat(Punct::LeftParen, tokens).is_some()
        || eat(Punct::LeftBracket, tokens).is_some()
        || eat(Punct::Dot, tokens).is_some()
        || eat(Punct::Arrow, tokens).is_some()
        || eat_step(tokens).is_some()
}

/// The tokens after a parenthesis before a type.
#[tactic(auto, unfolding(crate::specs::ReaderParts::sizeof_front, crate::specs::Reading::chain, crate::specs::Reading::when))]
pub(crate) fn sizeof_front<'a>(types: &TypeWords, tokens: &'a [Token]) -> Option<&'a [Token]>
    ensures token { option_map (λ x. placed x.now) result ≡ sizeof_front types.now (placed tokens.now) }
    ensures shorter { IfSome result (λ x. length x.now < length tokens.now) }
{
    let (_, inner) = eat(Punct::LeftParen, tokens)?;
    if begins_type(types, inner) {
        Some(inner)
    } else {
        None
    }
}
