ghost use Rattle.std.specs.Prelude.{Some};
ghost use Rattle.pungi_base.specs.Witness.{choice_text};

use std::fmt;

/// What the outside supplies at one point of a run: the outcome of an API call, or the content of a slot at its first
/// touch.
#[derive(Clone, Copy, PartialEq, Eq)]
pub enum Choice {
    /// The pointer `NULL`.
    Null,
    /// A pointer to the object of this number.
    Object(u32),
    /// An integer.
    Int(i64),
    /// A pointer to characters that isn't `NULL`.
    Text,
    /// An argument parser succeeded and wrote so many outputs.
    Given(u32),
    /// An argument parser failed after it wrote so many outputs.
    Failed(u32),
}

impl fmt::Display for Choice {
    ghost output = { λ x. Some (choice_text x) };

    fn fmt<W: fmt::Write>(&self, f: &mut fmt::Formatter<W>) -> fmt::Result {
        match self {
            Choice::Null => write!(f, "null"),
            Choice::Object(k) => write!(f, "object {k}"),
            Choice::Int(n) => write!(f, "int {n}"),
            Choice::Text => write!(f, "text"),
            Choice::Given(k) => write!(f, "given {k}"),
            Choice::Failed(k) => write!(f, "failed {k}"),
        }
    }
}
