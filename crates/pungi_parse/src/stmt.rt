//! Reading declarations and statements (C11 6.7 and 6.8).

pub(crate) mod begun;
pub(crate) mod decl;
pub(crate) mod front;
pub(crate) mod nested;
pub(crate) mod nodes;
pub(crate) mod simple;
pub(crate) mod table;
