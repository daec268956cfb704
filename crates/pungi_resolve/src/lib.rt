//! What a function does in which no rule holds: names resolved to locals by number, and conversions written out.
#![tactic(auto)]

mod call;
mod convert;
mod decl;
mod expr;
mod function;
mod made;
mod operators;
mod outputs;
mod params;
mod place;
mod stmt;
mod typed;
mod values;
mod walk;
mod word;

pub use function::resolve;
