//! What one token at the front is, or a few that hold no tree.

pub(crate) mod awaited_brackets;
pub(crate) mod beginnings;
pub(crate) mod closing_bracket;
pub(crate) mod one_token;
pub(crate) mod open_brackets;
pub(crate) mod operators;
pub(crate) mod same_token;
pub(crate) mod words;
