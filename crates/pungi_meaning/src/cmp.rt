ghost use Rattle.std.specs.Prelude.{◌≡◌};
ghost use Rattle.pungi_meaning.specs.Values.{cmp_of, is_equal, holds as comparison_holds, number_of};

use pungi_base::{Punct, Value};

/// A comparison (C11 6.5.8, 6.5.9).
#[derive(Clone, Copy)]
pub enum Cmp {
    Equal,
    NotEqual,
    Less,
    LessEqual,
    Greater,
    GreaterEqual,
}

impl Cmp {
    /// The comparison that a punctuator stands for.
    pub fn of(punct: Punct) -> Cmp
        ensures { result ≡ cmp_of punct }
    {
        match punct {
            Punct::NotEqual => Cmp::NotEqual,
            Punct::Less => Cmp::Less,
            Punct::LessEqual => Cmp::LessEqual,
            Punct::Greater => Cmp::Greater,
            Punct::GreaterEqual => Cmp::GreaterEqual,
            _ => Cmp::Equal,
        }
    }

    /// Whether two values compare so. Of two pointers only equality says anything: each other comparison
    /// takes them as 0.
    pub fn holds(self, left: Value, right: Value) -> bool
        ensures { result ≡ comparison_holds self left right }
    {
        match self {
            Cmp::Equal => is_equal(left, right),
            Cmp::NotEqual => !is_equal(left, right),
            Cmp::Less => number_of(left) < number_of(right),
            Cmp::LessEqual => number_of(left) <= number_of(right),
            Cmp::Greater => number_of(right) < number_of(left),
            Cmp::GreaterEqual => number_of(right) <= number_of(left),
        }
    }
}

fn is_equal(left: Value, right: Value) -> bool
    ensures { result ≡ is_equal left right }
{
    match (left, right) {
        (Value::Int(a), Value::Int(b)) => a == b,
        (Value::Object(a), Value::Object(b)) => a == b,
        (Value::Null, Value::Null) => true,
        (Value::Text, Value::Text) => true,
        _ => false,
    }
}

/// A value as a number. A pointer is no number, and counts as 0.
pub fn number_of(value: Value) -> i64
    ensures { result ≡ number_of value }
{
    match value {
        Value::Int(n) => n,
        _ => 0,
    }
}
