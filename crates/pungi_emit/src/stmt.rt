//! The instructions of statements.

pub(crate) mod decl;
pub(crate) mod stmt_code;
pub(crate) mod switch;
