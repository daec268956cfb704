use crate::states::sum::Sum;

/// What is known of what a variable or a slot holds.
#[derive(Clone, Copy)]
pub enum Term {
    /// Nothing that may be read.
    Unset,
    /// `NULL`.
    Null,
    /// A text.
    Text,
    Number(i64),
    /// What came in as a token. The static objects are the first tokens, then the arguments come, then one token with
    /// each choice.
    Token(usize),
    /// What an operator gave whose operands weren't all known.
    Sum(Sum),
}
