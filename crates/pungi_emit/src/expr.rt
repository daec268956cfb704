//! The instructions of expressions.

pub(crate) mod call_instr;
pub(crate) mod call_kinds;
pub(crate) mod calls;
pub(crate) mod case;
pub(crate) mod column;
pub(crate) mod expr_code;
pub(crate) mod first_token;
pub(crate) mod output_size;
pub(crate) mod outputs;
pub(crate) mod parts;
pub(crate) mod place;
pub(crate) mod size;
pub(crate) mod step;
pub(crate) mod temporary;
pub(crate) mod unary;
