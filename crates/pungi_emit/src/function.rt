//! The code of a function: its instructions, variables and heads.

pub(crate) mod codes;
pub(crate) mod function_code;
pub(crate) mod heads;
pub(crate) mod levels;
pub(crate) mod var_kinds;
