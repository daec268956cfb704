//! The emitters: the code of a function, as the layout has it.
#![tactic(auto)]

mod code;
mod expr;
mod function;
mod planning;
mod stmt;

pub use function::codes::lower_functions;
pub use function::function_code::lower_function;
