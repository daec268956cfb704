ghost use Rattle.std.specs.Prelude.{◌≡◌};
ghost use Rattle.pungi_tree.specs.Operators.{binary_level, is_assign, prefix_mark_need, is_step, is_base_word};
ghost use Rattle.pungi_tree.specs.Operators.{is_qualifier, is_aggregate, level as level_of};
ghost use Rattle.pungi_tree.specs.ExprView.{expr_view};

use pungi_base::{Key, Punct};
use pungi_tree::{Expr, ExprNode};

/// A level that no expression has.
const NOWHERE: u32 = 100;

/// The level of a binary operator.
pub(crate) fn binary_level(mark: Punct) -> u32
    ensures { result ≡ binary_level mark }
{
    match mark {
        Punct::OrOr => 3,
        Punct::AndAnd => 4,
        Punct::Or => 5,
        Punct::Caret => 6,
        Punct::And => 7,
        Punct::Equal | Punct::NotEqual => 8,
        Punct::Less | Punct::Greater | Punct::LessEqual | Punct::GreaterEqual => 9,
        Punct::ShiftLeft | Punct::ShiftRight => 10,
        Punct::Plus | Punct::Minus => 11,
        Punct::Star | Punct::Slash | Punct::Percent => 12,
        _ => NOWHERE,
    }
}

pub(crate) fn is_assign(mark: Punct) -> bool
    ensures { result ≡ is_assign mark }
{
    matches!(
        mark,
        Punct::Assign
            | Punct::PlusAssign
            | Punct::MinusAssign
            | Punct::StarAssign
            | Punct::SlashAssign
            | Punct::PercentAssign
            | Punct::ShiftLeftAssign
            | Punct::ShiftRightAssign
            | Punct::AndAssign
            | Punct::CaretAssign
            | Punct::OrAssign
    )
}

/// The level that the operand of a prefix operator needs.
pub(crate) fn prefix_need(mark: Punct) -> u32
    ensures { result ≡ prefix_mark_need mark }
{
    match mark {
        Punct::PlusPlus | Punct::MinusMinus => 14,
        Punct::And | Punct::Star | Punct::Plus | Punct::Minus | Punct::Tilde | Punct::Not => 13,
        _ => NOWHERE,
    }
}

pub(crate) fn is_step(mark: Punct) -> bool
    ensures { result ≡ is_step mark }
{
    matches!(mark, Punct::PlusPlus | Punct::MinusMinus)
}

pub(crate) fn is_aggregate(key: Key) -> bool
    ensures { result ≡ is_aggregate key }
{
    matches!(key, Key::Struct | Key::Union)
}

pub(crate) fn is_base_word(key: Key) -> bool
    ensures { result ≡ is_base_word key }
{
    matches!(
        key,
        Key::Int
            | Key::Long
            | Key::Short
            | Key::Char
            | Key::Unsigned
            | Key::Signed
            | Key::Float
            | Key::Double
            | Key::Void
            | Key::Bool
    )
}

pub(crate) fn is_qualifier(key: Key) -> bool
    ensures { result ≡ is_qualifier key }
{
    matches!(
        key,
        Key::Static | Key::Extern | Key::Inline | Key::Const | Key::Volatile | Key::Register
    )
}

/// How tightly an expression binds.
pub(crate) fn level(e: &Expr) -> u32
    ensures { result ≡ level_of (expr_view e.now) }
{
    match &e.node {
        ExprNode::Word(_)
        | ExprNode::Int { .. }
        | ExprNode::Float
        | ExprNode::Char(_)
        | ExprNode::Text(_)
        | ExprNode::Null
        | ExprNode::Paren(_)
        | ExprNode::New(_, _) => 16,
        ExprNode::Post(_, _)
        | ExprNode::Call(_, _)
        | ExprNode::Index(_, _)
        | ExprNode::Dot(_, _)
        | ExprNode::Arrow(_, _) => 15,
        ExprNode::Unary(_, _) | ExprNode::SizeOfType(_) => 14,
        ExprNode::Cast(_, _) => 13,
        ExprNode::Binary(mark, _, _) => binary_level(*mark),
        ExprNode::Cond(_, _, _) => 2,
        ExprNode::Assign(_, _, _) => 1,
        ExprNode::Comma(_, _) => 0,
    }
}
