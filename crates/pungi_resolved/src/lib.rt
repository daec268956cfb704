//! Functions with their names resolved and their conversions written out.
#![tactic(auto)]

mod action;
mod callee;
mod function;
mod output_step;
mod value;

pub use action::{Action, ActionNode, DeclaredLocal};
pub use callee::CalledFunction;
pub use function::Function;
pub use output_step::OutputStep;
pub use value::{Place, Value, ValueNode};
