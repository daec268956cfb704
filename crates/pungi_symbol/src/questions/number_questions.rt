// What an instruction asks of numbers.
ghost use Rattle.std.specs.Prelude.{◌≡◌, ◌+ℤ◌, ◌-ℤ◌};
ghost use Rattle.pungi_meaning.specs.Values.{arithmetic};
ghost use Rattle.pungi_symbol.specs.questions.NextQuestion.{asks_range, is_below, asks_fit, small_sum, sum_of};
ghost use Rattle.pungi_symbol.specs.questions.NextQuestion.{asks_sum, asks_computed, asks_result, asks_arith};
ghost use Rattle.pungi_symbol.specs.questions.NextQuestion.{asks_conversion};
ghost use Rattle.pungi_symbol.specs.questions.NextQuestion.{asks_orders, asks_pointers, asks_sign};

use crate::answers::decision::Decision;
use crate::questions::question::Question;
use crate::states::node::{Node, is_same_node, is_zero_node};
use crate::states::sum::Sum;
use pungi_meaning::{Op, arithmetic, fits};
use pungi_types::ValueKind;

// ---- known numbers

fn asks_range(number: Option<i64>, below: bool) -> Question
    ensures { result ≡ asks_range number below }
{
    match number {
        Some(_) => Question::Does(Decision::Outcome(1)),
        None => Question::Stops(Decision::Outcome(if below { 0 } else { 2 })),
    }
}

fn asks_fit(kind: ValueKind, n: i64) -> Question
    ensures { result ≡ asks_fit kind n }
{
    if fits(kind, n) {
        Question::Does(Decision::Outcome(1))
    } else {
        Question::Stops(Decision::Outcome(if n < 0 { 0 } else { 2 }))
    }
}

fn is_sum_below(m: i64, n: i64) -> bool
    ensures { result ≡ is_below Op.Add m n }
{
    match m.checked_add(n) {
        Some(r) => r < 0,
        None => m < 0,
    }
}

fn is_difference_below(m: i64, n: i64) -> bool
    ensures { result ≡ is_below Op.Sub m n }
{
    match m.checked_sub(n) {
        Some(r) => r < 0,
        None => m < 0,
    }
}

fn is_product_below(m: i64, n: i64) -> bool
    ensures { result ≡ is_below Op.Mul m n }
{
    (m < 0 && n > 0) || (m > 0 && n < 0)
}

fn is_quotient_below(m: i64, n: i64) -> bool
    ensures { result ≡ is_below Op.Div m n }
{
    match m.checked_div(n) {
        Some(r) => r < 0,
        None => false,
    }
}

fn is_rest_below(m: i64, n: i64) -> bool
    ensures { result ≡ is_below Op.Rem m n }
{
    match m.checked_rem(n) {
        Some(r) => r < 0,
        None => false,
    }
}

fn is_result_below(op: Op, m: i64, n: i64) -> bool
    ensures { result ≡ is_below op m n }
{
    match op {
        Op::Add => is_sum_below(m, n),
        Op::Sub => is_difference_below(m, n),
        Op::Mul => is_product_below(m, n),
        Op::Div => is_quotient_below(m, n),
        Op::Rem => is_rest_below(m, n),
    }
}

// ---- sums

/// A sum whose constant lies between -2^64 and 2^64.
fn small_sum(node: Node, plus: i128) -> Option<Sum>
    ensures { result ≡ small_sum (record { node = node; plus = plus }) }
{
    if -0xffff_ffff_ffff_ffff <= plus && plus <= 0xffff_ffff_ffff_ffff {
        Some(Sum { node, plus })
    } else {
        None
    }
}

fn sum_with(node: Node, a: i128, b: i128) -> Option<Sum>
    ensures { result ≡ small_sum (record { node = node; plus = a +ℤ b }) }
{
    match a.checked_add(b) {
        Some(plus) => small_sum(node, plus),
        None => None,
    }
}

fn sum_without(node: Node, a: i128, b: i128) -> Option<Sum>
    ensures { result ≡ small_sum (record { node = node; plus = a -ℤ b }) }
{
    match a.checked_sub(b) {
        Some(plus) => small_sum(node, plus),
        None => None,
    }
}

fn added(a: Sum, b: Sum) -> Option<Sum>
    ensures { result ≡ sum_of Op.Add a b }
{
    if is_zero_node(b.node) {
        sum_with(a.node, a.plus, b.plus)
    } else if is_zero_node(a.node) {
        sum_with(b.node, a.plus, b.plus)
    } else {
        None
    }
}

fn subtracted(a: Sum, b: Sum) -> Option<Sum>
    ensures { result ≡ sum_of Op.Sub a b }
{
    if is_zero_node(b.node) {
        sum_without(a.node, a.plus, b.plus)
    } else if is_same_node(a.node, b.node) {
        sum_without(Node::Zero, a.plus, b.plus)
    } else {
        None
    }
}

fn sum_of(op: Op, a: Sum, b: Sum) -> Option<Sum>
    ensures { result ≡ sum_of op a b }
{
    match op {
        Op::Add => added(a, b),
        Op::Sub => subtracted(a, b),
        Op::Mul => None,
        Op::Div => None,
        Op::Rem => None,
    }
}

// ---- questions

/// A number of this kind is computed.
pub fn asks_result(kind: ValueKind, x: Option<Sum>) -> Question
    ensures { result ≡ asks_result kind x }
{
    match x {
        None => Question::Unplain,
        Some(a) => Question::Range(kind, a),
    }
}

/// The result of an operator on two numbers, which may be a sum.
fn asks_sum(kind: ValueKind, op: Op, a: Sum, b: Sum) -> Question
    ensures { result ≡ asks_sum kind op a b (sum_of op a b) }
{
    match sum_of(op, a, b) {
        None => Question::Computes(kind, op, a, b),
        Some(sum) => Question::Range(kind, sum),
    }
}

/// The result of an operator on what may be two numbers.
pub fn asks_computed(kind: ValueKind, op: Op, x: Option<Sum>, y: Option<Sum>) -> Question
    ensures { result ≡ asks_computed kind op x y }
{
    match x {
        None => Question::Unplain,
        Some(a) => match y {
            None => Question::Unplain,
            Some(b) => asks_sum(kind, op, a, b),
        },
    }
}

/// An arithmetic operator, whose operands may be known.
pub fn asks_arith(op: Op, kind: ValueKind, x: Option<i64>, y: Option<i64>, q: Question) -> Question
    ensures { result ≡ asks_arith op kind x y q }
{
    match x {
        None => q,
        Some(m) => match y {
            None => q,
            Some(n) => asks_range(arithmetic(op, kind, m, n), is_result_below(op, m, n)),
        },
    }
}

/// A conversion of what may be a known number.
pub fn asks_conversion(kind: ValueKind, x: Option<i64>, q: Question) -> Question
    ensures { result ≡ asks_conversion kind x q }
{
    match x {
        None => q,
        Some(n) => asks_fit(kind, n),
    }
}

/// A comparison of what may be two numbers.
pub fn asks_orders(x: Option<Sum>, y: Option<Sum>, q: Question) -> Question
    ensures { result ≡ asks_orders x y q }
{
    match x {
        None => q,
        Some(a) => match y {
            None => q,
            Some(b) => Question::Orders(a, b),
        },
    }
}

/// A comparison of what isn't two numbers.
pub fn asks_pointers(x: Option<Sum>, y: Option<Sum>, q: Question) -> Question
    ensures { result ≡ asks_pointers x y q }
{
    match x {
        None => match y {
            None => q,
            Some(_) => Question::Unplain,
        },
        Some(_) => Question::Unplain,
    }
}

/// Whether what may be a number is 0.
pub fn asks_sign(x: Option<Sum>, q: Question) -> Question
    ensures { result ≡ asks_sign x q }
{
    match x {
        None => q,
        Some(a) => Question::Orders(
            a,
            Sum {
                node: Node::Zero,
                plus: 0,
            },
        ),
    }
}
