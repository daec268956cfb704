//! What operators make of the kinds of their operands (C11 6.5).
ghost use Rattle.std.specs.Prelude.{◌≡◌, ◌&&◌, ◌||◌, pos};
ghost use Rattle.pungi_types.specs.Labels.{byte};
ghost use Rattle.pungi_types.specs.Operators.{is_bits, is_arithmetic, is_order as is_order_of, is_equality};
ghost use Rattle.pungi_types.specs.Operators.{is_bits_assign, is_arithmetic_assign, prefix_of, on_pointers};
ghost use Rattle.pungi_types.specs.Operators.{assigns_pointers, is_int, is_integer as is_integer_of};
ghost use Rattle.pungi_types.specs.Operators.{is_pointer as is_pointer_of, is_object as is_object_of};
ghost use Rattle.pungi_types.specs.Operators.{is_same_kind as is_same_kind_of};
ghost use Rattle.pungi_types.specs.Operators.{is_text as is_text_of, is_null as is_null_of, is_void as is_void_of};
ghost use Rattle.pungi_types.specs.Operators.{wider, fits, comparable, joinable, joined_kind, has_same, struct_part};
ghost use Rattle.pungi_types.specs.Exprs.{binary_kind, binary_wrong, assign_kind, assign_wrong, cond_kind, cond_wrong};
ghost use Rattle.pungi_types.specs.Exprs.{cast_kind, cast_wrong, crosses, step_kind, unary_kind, unary_wrong};
ghost use Rattle.pungi_types.specs.Exprs.{is_step_or_sign, is_bad_int, int_kind};

use crate::ValueKind;
use pungi_base::{Kind, Name, Punct};

type Known = Option<ValueKind>;

/// An operator before its operand: `&`, `++ --`, `+ -`, `!`, or one that the subset leaves out.
#[derive(Clone, Copy)]
pub enum Prefix {
    Address,
    Step,
    Sign,
    Negation,
    LeftOut,
}

/// What an operator before its operand is.
pub fn prefix_of(k: Kind) -> Prefix
    ensures { result ≡ prefix_of k }
{
    match k {
        Kind::Punct(Punct::And) => Prefix::Address,
        Kind::Punct(Punct::PlusPlus | Punct::MinusMinus) => Prefix::Step,
        Kind::Punct(Punct::Plus | Punct::Minus) => Prefix::Sign,
        Kind::Punct(Punct::Not) => Prefix::Negation,
        _ => Prefix::LeftOut,
    }
}

/// The kind of an operand with an operator before it, and none where a rule holds there.
pub fn unary_kind(op: Prefix, type_object: bool, place: bool, k: Known) -> Known
    ensures { result ≡ unary_kind op type_object place k }
{
    match op {
        Prefix::Address => {
            if type_object {
                Some(ValueKind::Object(None))
            } else {
                None
            }
        }
        Prefix::Step => step_kind(place, k),
        Prefix::Sign => {
            if is_integer(k) {
                Some(wider(k, k))
            } else {
                None
            }
        }
        Prefix::Negation => {
            if is_integer(k) || is_pointer(k) {
                Some(ValueKind::Int)
            } else {
                None
            }
        }
        Prefix::LeftOut => None,
    }
}

/// An operand of the wrong kind, or a stepped one that is no place.
pub fn unary_wrong(op: Prefix, place: bool, k: Known) -> bool
    ensures { result ≡ unary_wrong op place k }
{
    match op {
        Prefix::Step => is_void(k) || (is_integer(k) && !place),
        Prefix::Sign | Prefix::Negation => is_void(k),
        Prefix::Address | Prefix::LeftOut => false,
    }
}

/// A step or sign of a pointer.
pub fn steps_pointer(op: Prefix, k: Known) -> bool
    ensures { result ≡ (is_step_or_sign op && is_pointer_of k) }
{
    matches!(op, Prefix::Step | Prefix::Sign) && is_pointer(k)
}

/// Arithmetic on a pointer.
pub fn on_pointers(m: Punct, a: Known, b: Known) -> bool
    ensures { result ≡ on_pointers m a b }
{
    is_arithmetic(m) && (is_pointer(a) || is_pointer(b))
}

/// Arithmetic on a pointer in an assignment.
pub fn assigns_pointers(m: Punct, a: Known, b: Known) -> bool
    ensures { result ≡ assigns_pointers m a b }
{
    is_arithmetic_assign(m) && (is_pointer(a) || is_pointer(b))
}

/// A constant that is marked unsigned, too large, or below 0.
pub fn is_bad_int(value: i128, unsigned: bool) -> bool
    ensures { result ≡ is_bad_int value unsigned }
{
    unsigned || (value < 0 || value > 9223372036854775807)
}

/// The number of a character of one byte (C11 6.4.4.4).
pub fn byte_value(code: u8) -> i64
    ensures { result ≡ pos (byte code) }
{
    i64::from(code)
}

/// The kind of an integer constant (C11 6.4.4.1).
pub fn int_kind(value: i128, long: bool, unsigned: bool) -> Known
    ensures { result ≡ int_kind value long unsigned }
{
    if is_bad_int(value, unsigned) {
        None
    } else if long || value > 2147483647 {
        Some(ValueKind::Long)
    } else {
        Some(ValueKind::Int)
    }
}

/// `& | ^ << >>`.
pub fn is_bits(m: Punct) -> bool
    ensures { result ≡ is_bits m }
{
    matches!(
        m,
        Punct::And | Punct::Or | Punct::Caret | Punct::ShiftLeft | Punct::ShiftRight
    )
}

/// `+ - * / %`.
pub fn is_arithmetic(m: Punct) -> bool
    ensures { result ≡ is_arithmetic m }
{
    matches!(
        m,
        Punct::Plus | Punct::Minus | Punct::Star | Punct::Slash | Punct::Percent
    )
}

/// `< > <= >=`.
pub fn is_order(m: Punct) -> bool
    ensures { result ≡ is_order_of m }
{
    matches!(
        m,
        Punct::Less | Punct::Greater | Punct::LessEqual | Punct::GreaterEqual
    )
}

/// `== !=`.
pub fn is_equality(m: Punct) -> bool
    ensures { result ≡ is_equality m }
{
    matches!(m, Punct::Equal | Punct::NotEqual)
}

/// `&= |= ^= <<= >>=`.
pub fn is_bits_assign(m: Punct) -> bool
    ensures { result ≡ is_bits_assign m }
{
    matches!(
        m,
        Punct::AndAssign
            | Punct::OrAssign
            | Punct::CaretAssign
            | Punct::ShiftLeftAssign
            | Punct::ShiftRightAssign
    )
}

/// `+= -= *= /= %=`.
pub fn is_arithmetic_assign(m: Punct) -> bool
    ensures { result ≡ is_arithmetic_assign m }
{
    matches!(
        m,
        Punct::PlusAssign
            | Punct::MinusAssign
            | Punct::StarAssign
            | Punct::SlashAssign
            | Punct::PercentAssign
    )
}

/// An int.
pub fn is_int(k: Known) -> bool
    ensures { result ≡ is_int k }
{
    matches!(k, Some(ValueKind::Int))
}

/// An int, long or size.
pub fn is_integer(k: Known) -> bool
    ensures { result ≡ is_integer_of k }
{
    matches!(k, Some(ValueKind::Int | ValueKind::Long | ValueKind::Size))
}

/// Two kinds are one integer kind.
pub fn is_same_kind(a: Known, b: Known) -> bool
    ensures { result ≡ is_same_kind_of a b }
{
    matches!(
        (a, b),
        (Some(ValueKind::Int), Some(ValueKind::Int))
            | (Some(ValueKind::Long), Some(ValueKind::Long))
            | (Some(ValueKind::Size), Some(ValueKind::Size))
    )
}

/// A text, an object or `NULL`.
pub fn is_pointer(k: Known) -> bool
    ensures { result ≡ is_pointer_of k }
{
    matches!(
        k,
        Some(ValueKind::Text | ValueKind::Object(_) | ValueKind::Null)
    )
}

pub fn is_object(k: Known) -> bool
    ensures { result ≡ is_object_of k }
{
    matches!(k, Some(ValueKind::Object(_)))
}

pub fn is_text(k: Known) -> bool
    ensures { result ≡ is_text_of k }
{
    matches!(k, Some(ValueKind::Text))
}

fn is_null(k: Known) -> bool
    ensures { result ≡ is_null_of k }
{
    matches!(k, Some(ValueKind::Null))
}

/// The kind of a call that returns nothing.
pub fn is_void(k: Known) -> bool
    ensures { result ≡ is_void_of k }
{
    matches!(k, Some(ValueKind::Void))
}

/// The kind of arithmetic: int of two ints, else long (C11 6.3.1.8).
pub fn wider(a: Known, b: Known) -> ValueKind
    ensures { result ≡ wider a b }
{
    if is_int(a) && is_int(b) {
        ValueKind::Int
    } else {
        ValueKind::Long
    }
}

/// A value of the second kind may be assigned to the first (C11 6.5.16.1).
pub fn fits(a: Known, b: Known) -> bool
    ensures { result ≡ fits a b }
{
    (is_integer(a) && is_integer(b))
        || ((is_object(a) && (is_object(b) || is_null(b)))
            || (is_text(a) && (is_text(b) || is_null(b))))
}

fn comparable(a: Known, b: Known) -> bool
    ensures { result ≡ comparable a b }
{
    (is_integer(a) && is_integer(b))
        || ((is_object(a) && is_object(b))
            || ((is_null(a) && is_pointer(b)) || (is_pointer(a) && is_null(b))))
}

fn joinable(a: Known, b: Known) -> bool
    ensures { result ≡ joinable a b }
{
    comparable(a, b) || (is_text(a) && is_text(b))
}

/// The struct of a pointer's kind.
pub fn struct_part(k: Known) -> Option<Name>
    ensures { result ≡ struct_part k }
{
    match k {
        Some(ValueKind::Object(name)) => name,
        _ => None,
    }
}

fn has_same(a: Option<Name>, b: Option<Name>) -> bool
    ensures { result ≡ has_same a b }
{
    match (a, b) {
        (Some(a), Some(b)) => a.0 == b.0,
        _ => false,
    }
}

fn joined_kind(a: Known, b: Known) -> Known
    ensures { result ≡ joined_kind a b }
{
    if is_integer(a) && is_integer(b) {
        Some(wider(a, b))
    } else if is_null(a) {
        b
    } else if is_null(b) {
        a
    } else if is_text(a) {
        a
    } else if has_same(struct_part(a), struct_part(b)) {
        a
    } else {
        Some(ValueKind::Object(None))
    }
}

/// The kind of `++` and `--`.
pub fn step_kind(place: bool, k: Known) -> Known
    ensures { result ≡ step_kind place k }
{
    if place && is_integer(k) { k } else { None }
}

/// The kind of two operands with a binary operator between, and none where a rule holds there.
pub fn binary_kind(m: Punct, a: Known, b: Known) -> Known
    ensures { result ≡ binary_kind m a b }
{
    if is_bits(m) {
        None
    } else if is_arithmetic(m) {
        if is_integer(a) && is_integer(b) {
            Some(wider(a, b))
        } else {
            None
        }
    } else if is_order(m) {
        if is_integer(a) && is_integer(b) {
            Some(ValueKind::Int)
        } else {
            None
        }
    } else if is_equality(m) {
        if comparable(a, b) {
            Some(ValueKind::Int)
        } else {
            None
        }
    } else if (is_integer(a) || is_pointer(a)) && (is_integer(b) || is_pointer(b)) {
        Some(ValueKind::Int)
    } else {
        None
    }
}

/// Operands of the wrong kinds.
pub fn binary_wrong(m: Punct, a: Known, b: Known) -> bool
    ensures { result ≡ binary_wrong m a b }
{
    !is_bits(m)
        && (is_void(a)
            || (is_void(b)
                || ((is_order(m) && (is_pointer(a) || is_pointer(b)))
                    || (is_equality(m) && ((a.is_some() && b.is_some()) && !comparable(a, b))))))
}

/// The kind of an assignment, and none where a rule holds there.
pub fn assign_kind(m: Punct, place: bool, a: Known, b: Known) -> Known
    ensures { result ≡ assign_kind m place a b }
{
    if is_bits_assign(m) {
        None
    } else if is_arithmetic_assign(m) {
        if place && (is_integer(a) && is_integer(b)) {
            a
        } else {
            None
        }
    } else if place && fits(a, b) {
        a
    } else {
        None
    }
}

/// An assignment of the wrong kinds, or to what is no place.
pub fn assign_wrong(m: Punct, place: bool, a: Known, b: Known) -> bool
    ensures { result ≡ assign_wrong m place a b }
{
    !is_bits_assign(m)
        && ((a.is_some() && (!place && !(is_arithmetic_assign(m) && is_pointer(a))))
            || (is_void(b)
                || (!is_arithmetic_assign(m)
                    && (place && ((a.is_some() && b.is_some()) && !fits(a, b))))))
}

/// The kind of `?:`, and none where a rule holds there.
pub fn cond_kind(c: Known, a: Known, b: Known) -> Known
    ensures { result ≡ cond_kind c a b }
{
    if (c.is_some() && !is_void(c)) && ((a.is_some() && b.is_some()) && joinable(a, b)) {
        joined_kind(a, b)
    } else {
        None
    }
}

/// Operands of `?:` of the wrong kinds.
pub fn cond_wrong(c: Known, a: Known, b: Known) -> bool
    ensures { result ≡ cond_wrong c a b }
{
    is_void(c) || (is_void(a) || (is_void(b) || ((a.is_some() && b.is_some()) && !joinable(a, b))))
}

/// One is an integer and the other a pointer.
pub fn crosses(a: Known, b: Known) -> bool
    ensures { result ≡ crosses a b }
{
    (is_integer(a) && is_pointer(b)) || (is_pointer(a) && is_integer(b))
}

/// The kind of a cast, and none where a rule holds there.
pub fn cast_kind(to: Known, k: Known) -> Known
    ensures { result ≡ cast_kind to k }
{
    if (is_void(to) && k.is_some()) || fits(to, k) {
        to
    } else {
        None
    }
}

/// A cast of the wrong kind.
pub fn cast_wrong(to: Known, k: Known) -> bool
    ensures { result ≡ cast_wrong to k }
{
    to.is_some()
        && (!is_void(to) && (is_void(k) || (k.is_some() && (!crosses(to, k) && !fits(to, k)))))
}
