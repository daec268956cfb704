//! From the tokens of a file to its syntax tree.
#![tactic(auto)]

mod expr;
mod fault;
mod item;
mod parser;
mod stmt;
mod stop;
mod tokens;
mod types;
mod unit;

pub use fault::ParseFault;
pub use unit::parse;
