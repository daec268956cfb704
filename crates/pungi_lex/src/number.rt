ghost use Rattle.std.specs.Prelude.{◌≡◌, ◌≤◌, ◌<◌, ◌^◌, length, MatchOption, codes};
ghost use Rattle.pungi_lex.specs.Bytes.{begins, begins_with, after_front, is_digit, is_hex_digit};
ghost use Rattle.pungi_lex.specs.Number.{goes_on, is_sign as sign, is_u, is_l, is_exponent_letter as exponent_letter};
ghost use Rattle.pungi_lex.specs.Number.{digit_value, number_count, value_in, int_kind, int_of, hex_of, is_float};
ghost use Rattle.pungi_lex.specs.Number.{is_float_suffix, is_unsigned_suffix, is_long_suffix as long_suffix};
ghost use Rattle.pungi_lex.specs.Number.{is_mixed_suffix, is_suffix, ends_in_exponent, ends_in_fraction, after_sign};
ghost use Rattle.pungi_lex.specs.Number.{begins_hex, number_kind};

use crate::bytes::{digit_count, hex_count, is_digit, is_hex_digit, is_word_byte, octal_count};
use pungi_base::Kind;

/// The greatest value of an integer constant.
const MOST: u128 = i128::MAX as u128;

/// The least value that an `int` doesn't hold.
const PAST_INT: u128 = 1 << 31;

/// The least value that an `unsigned int` doesn't hold.
const PAST_UNSIGNED: u128 = 1 << 32;

pub(crate) const ZERO: u8 = b'0';

pub(crate) const UPPER_A: u8 = b'A';

pub(crate) const LOWER_A: u8 = b'a';

fn is_sign(b: u8) -> bool
    ensures { result ≡ sign b }
{
    b == b'+' || b == b'-'
}

fn is_exponent_letter(b: u8) -> bool
    ensures { result ≡ exponent_letter b }
{
    b == b'E' || b == b'e'
}

fn goes_on(prev: u8, b: u8) -> bool
    ensures { result ≡ goes_on prev b }
{
    is_word_byte(b)
        || b == b'.'
        || (is_sign(b) && (is_exponent_letter(prev) || prev == b'P' || prev == b'p'))
}

/// How long the number's spelling at the front of a text is.
pub(crate) fn number_count(text: &[u8]) -> usize
    requires some { 0 < length text.now }
    ensures count { result ≡ number_count text.now }
    ensures within { result ≤ length text.now }
{
    let mut prev = text[0];
    let mut count = 1;
    'bytes: while count < text.len() && goes_on(prev, text[count]) {
        prev = text[count];
        count += 1;
    }
    count
}

fn digit_value(b: u8) -> u8
    ensures { result ≡ digit_value b }
{
    if is_digit(b) {
        b.saturating_sub(ZERO)
    } else if LOWER_A <= b {
        10 + b.saturating_sub(LOWER_A)
    } else {
        10 + b.saturating_sub(UPPER_A)
    }
}

/// The value of digits in a base.
#[inline(always)]
fn value_of(base: u128, digits: &[u8]) -> Option<u128>
    requires some { 0 < base }
    requires small { base ≤ 16 }
    ensures { MatchOption result (2 ^ 127 ≤ value_in base digits.now) (λ value. (value ≡ value_in base digits.now)
        × (value < 2 ^ 127)) }
{
    let mut value = 0u128;
    for b in digits {
        if value > MOST / base {
            return None;
        }
        value = base * value + u128::from(digit_value(*b));
        if value > MOST {
            return None;
        }
    }
    Some(value)
}

fn is_u(b: u8) -> bool
    ensures { result ≡ is_u b }
{
    b == b'u' || b == b'U'
}

fn is_l(b: u8) -> bool
    ensures { result ≡ is_l b }
{
    b == b'l' || b == b'L'
}

fn is_unsigned_suffix(s: &[u8]) -> bool
    ensures { result ≡ is_unsigned_suffix s.now }
{
    match s {
        [] => false,
        [a] => is_u(*a),
        [_, _, ..] => false,
    }
}

fn is_long_suffix(s: &[u8]) -> bool
    ensures { result ≡ long_suffix s.now }
{
    match s {
        [] => false,
        [a] => is_l(*a),
        [a, b] => is_l(*a) && *a == *b,
        [_, _, _, ..] => false,
    }
}

fn is_mixed_suffix(s: &[u8]) -> bool
    ensures { result ≡ is_mixed_suffix s.now }
{
    match s {
        [] => false,
        [_] => false,
        [a, b] => (is_u(*a) && is_l(*b)) || (is_l(*a) && is_u(*b)),
        [a, b, c] => (is_u(*a) && is_l(*b) && *b == *c) || (is_l(*a) && *a == *b && is_u(*c)),
        [_, _, _, _, ..] => false,
    }
}

fn is_suffix(s: &[u8]) -> bool
    ensures { result ≡ is_suffix s.now }
{
    match s {
        [] => true,
        [_, ..] => is_unsigned_suffix(s) || is_long_suffix(s) || is_mixed_suffix(s),
    }
}

/// The integer constant of these digits in a base, and of this suffix.
#[inline(always)]
fn int_kind(decimal: bool, base: u128, digits: &[u8], suffix: &[u8]) -> Option<Kind>
    requires some { 0 < base }
    requires small { base ≤ 16 }
    ensures { result ≡ int_kind decimal (value_in base digits.now) suffix.now }
{
    if !is_suffix(suffix) {
        return None;
    }
    match value_of(base, digits) {
        None => None,
        Some(value) => {
            let has_long = is_long_suffix(suffix) || is_mixed_suffix(suffix);
            let has_unsigned = is_unsigned_suffix(suffix) || is_mixed_suffix(suffix);
            Some(Kind::Int {
                value: value as i128,
                long: has_long || PAST_INT <= value,
                unsigned: has_unsigned
                    || (!decimal && !has_long && PAST_INT <= value && value < PAST_UNSIGNED),
            })
        }
    }
}

fn begins_hex(s: &[u8]) -> bool
    ensures { result ≡ begins_hex s.now }
{
    match s {
        [] => false,
        [_] => false,
        [a, b, ..] => *a == b'0' && (*b == b'x' || *b == b'X'),
    }
}

fn is_float_suffix(s: &[u8]) -> bool
    ensures { result ≡ is_float_suffix s.now }
{
    match s {
        [] => true,
        [a] => *a == b'f' || *a == b'F' || *a == b'l' || *a == b'L',
        [_, _, ..] => false,
    }
}

fn begins_digit(s: &[u8]) -> bool
    ensures { result ≡ begins is_digit s.now }
{
    match s {
        [] => false,
        [a, ..] => is_digit(*a),
    }
}

fn begins_hex_digit(s: &[u8]) -> bool
    ensures { result ≡ begins is_hex_digit s.now }
{
    match s {
        [] => false,
        [a, ..] => is_hex_digit(*a),
    }
}

fn begins_zero(s: &[u8]) -> bool
    ensures { result ≡ begins_with (codes "0") s.now }
{
    match s {
        [] => false,
        [a, ..] => *a == b'0',
    }
}

/// What follows the digits at the front.
fn after_digits(s: &[u8]) -> &[u8]
    ensures { result.now ≡ after_front is_digit s.now }
{
    &s[digit_count(s)..]
}

fn behind_sign(s: &[u8]) -> &[u8]
    ensures { result.now ≡ after_sign s.now }
{
    match s {
        [] => s,
        [b, rest @ ..] => { if is_sign(*b) { rest } else { s } }
    }
}

fn ends_in_exponent(s: &[u8]) -> bool
    ensures { result ≡ ends_in_exponent s.now }
{
    match s {
        [] => false,
        [b, rest @ ..] => {
            let digits = behind_sign(rest);
            is_exponent_letter(*b) && begins_digit(digits) && is_float_suffix(after_digits(digits))
        }
    }
}

fn ends_in_fraction(some: bool, s: &[u8]) -> bool
    ensures { result ≡ ends_in_fraction some s.now }
{
    match s {
        [] => false,
        [b, rest @ ..] => {
            let behind = after_digits(rest);
            *b == b'.'
                && (some || begins_digit(rest))
                && (is_float_suffix(behind) || ends_in_exponent(behind))
        }
    }
}

fn is_float(s: &[u8]) -> bool
    ensures { result ≡ is_float s.now }
{
    let some = begins_digit(s);
    let rest = after_digits(s);
    ends_in_fraction(some, rest) || (some && ends_in_exponent(rest))
}

/// The integer constant whose spelling is this after `0x`.
fn hex_of(s: &[u8]) -> Option<Kind>
    ensures { result ≡ hex_of s.now }
{
    if !begins_hex_digit(s) {
        return None;
    }
    let (digits, suffix) = s.split_at(hex_count(s));
    int_kind(false, 16, digits, suffix)
}

fn int_of(s: &[u8]) -> Option<Kind>
    ensures { result ≡ int_of s.now }
{
    if begins_hex(s) {
        let (_, behind) = s.split_at(2);
        return hex_of(behind);
    }
    if begins_zero(s) {
        let (digits, suffix) = s.split_at(octal_count(s));
        return int_kind(false, 8, digits, suffix);
    }
    if begins_digit(s) {
        let (digits, suffix) = s.split_at(digit_count(s));
        return int_kind(true, 10, digits, suffix);
    }
    None
}

/// What a whole number's spelling is.
pub(crate) fn number_kind(s: &[u8]) -> Option<Kind>
    ensures { result ≡ number_kind s.now }
{
    if is_float(s) {
        Some(Kind::Float)
    } else {
        int_of(s)
    }
}
