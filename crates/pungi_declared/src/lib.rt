//! What a file declares, in text order: structs and unions with fields, typedefs, variables, functions and their
//! prototypes.
#![tactic(auto)]

mod expr_tags;
mod items;
mod stmt_tags;
mod tag;
mod unit_tags;
mod variable;

pub use items::{definitions, prototypes, typedefs, variables};
pub use tag::Tag;
pub use unit_tags::tags;
pub use variable::{Place, Variable};
