//! Reading expressions (C11 6.5).

pub(crate) mod infix;
pub(crate) mod leaves;
pub(crate) mod nodes;
pub(crate) mod postfix;
