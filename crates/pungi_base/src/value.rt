ghost use Rattle.std.specs.Prelude.{Some};
ghost use Rattle.pungi_base.specs.Witness.{value_text};

use std::fmt;

/// What a variable or an argument holds. Objects go by their numbers.
#[derive(Clone, Copy, Debug, PartialEq, Eq)]
pub enum Value {
    /// The pointer `NULL`.
    Null,
    /// A pointer to the object of this number.
    Object(u32),
    /// An integer.
    Int(i64),
    /// A pointer to characters that isn't `NULL`.
    Text,
}

impl fmt::Display for Value {
    ghost output = { λ x. Some (value_text x) };

    fn fmt<W: fmt::Write>(&self, f: &mut fmt::Formatter<W>) -> fmt::Result {
        match self {
            Value::Null => write!(f, "null"),
            Value::Object(k) => write!(f, "object {k}"),
            Value::Int(n) => write!(f, "int {n}"),
            Value::Text => write!(f, "text"),
        }
    }
}
