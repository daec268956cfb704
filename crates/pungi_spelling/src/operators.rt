ghost use Rattle.std.specs.Prelude.{◌≡◌};
ghost use Rattle.pungi_tree.specs.Operators.{binary_level, is_assign, prefix_need, is_step, is_base_word, is_qualifier};
ghost use Rattle.pungi_tree.specs.Operators.{is_aggregate, all_keys};

use pungi_base::{Key, Kind, Punct};

/// A level that no expression has.
const NOWHERE: u32 = 100;

/// The level of a binary operator.
pub(crate) fn binary_level(mark: Punct) -> u32
    ensures { result ≡ binary_level mark }
{
    match mark {
        Punct::OrOr => 3,
        Punct::AndAnd => 4,
        Punct::Or => 5,
        Punct::Caret => 6,
        Punct::And => 7,
        Punct::Equal | Punct::NotEqual => 8,
        Punct::Less | Punct::Greater | Punct::LessEqual | Punct::GreaterEqual => 9,
        Punct::ShiftLeft | Punct::ShiftRight => 10,
        Punct::Plus | Punct::Minus => 11,
        Punct::Star | Punct::Slash | Punct::Percent => 12,
        _ => NOWHERE,
    }
}

pub(crate) fn is_assign(mark: Punct) -> bool
    ensures { result ≡ is_assign mark }
{
    matches!(
        mark,
        Punct::Assign
            | Punct::PlusAssign
            | Punct::MinusAssign
            | Punct::StarAssign
            | Punct::SlashAssign
            | Punct::PercentAssign
            | Punct::ShiftLeftAssign
            | Punct::ShiftRightAssign
            | Punct::AndAssign
            | Punct::CaretAssign
            | Punct::OrAssign
    )
}

/// The level that the operand of a prefix operator needs.
pub(crate) fn prefix_need(kind: Kind) -> u32
    ensures { result ≡ prefix_need kind }
{
    match kind {
        Kind::Punct(Punct::PlusPlus | Punct::MinusMinus) | Kind::Key(Key::Sizeof) => 14,
        Kind::Punct(
            Punct::And | Punct::Star | Punct::Plus | Punct::Minus | Punct::Tilde | Punct::Not,
        ) => 13,
        _ => NOWHERE,
    }
}

pub(crate) fn is_step(mark: Punct) -> bool
    ensures { result ≡ is_step mark }
{
    matches!(mark, Punct::PlusPlus | Punct::MinusMinus)
}

pub(crate) fn is_aggregate(key: Key) -> bool
    ensures { result ≡ is_aggregate key }
{
    matches!(key, Key::Struct | Key::Union)
}

fn is_base_word(key: Key) -> bool
    ensures { result ≡ is_base_word key }
{
    matches!(
        key,
        Key::Int
            | Key::Long
            | Key::Short
            | Key::Char
            | Key::Unsigned
            | Key::Signed
            | Key::Float
            | Key::Double
            | Key::Void
            | Key::Bool
    )
}

fn is_qualifier(key: Key) -> bool
    ensures { result ≡ is_qualifier key }
{
    matches!(
        key,
        Key::Static | Key::Extern | Key::Inline | Key::Const | Key::Volatile | Key::Register
    )
}

pub(crate) fn base_words(keys: &Vec<Key>) -> bool
    ensures { result ≡ all_keys is_base_word keys.now.items }
{
    for key in keys {
        if !is_base_word(*key) {
            return false;
        }
    }
    true
}

pub(crate) fn qualifiers(keys: &Vec<Key>) -> bool
    ensures { result ≡ all_keys is_qualifier keys.now.items }
{
    for key in keys {
        if !is_qualifier(*key) {
            return false;
        }
    }
    true
}
