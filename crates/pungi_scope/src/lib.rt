//! What a function's statements make of the rules: the names in force at each place, labels, cases, and the sizes of a
//! function.
#![tactic(auto)]

mod cases;
mod conventions;
mod decl;
mod expr_nodes;
mod function;
mod labels;
mod local_names;
mod next_local;
mod nodes;
mod params;
mod scope;
mod steps;
mod stmt;
mod walk;

pub use cases::constant;
pub use function::refusal;
pub use local_names::LocalNames;
pub use next_local::NextLocal;
pub use scope::Scope;
