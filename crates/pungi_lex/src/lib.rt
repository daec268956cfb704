//! Cuts a C text into tokens, and replaces its object macros.
#![tactic(auto)]

mod bytes;
mod character;
mod comment;
mod directive;
mod expander;
mod frames;
mod join;
mod key;
mod lex_fault;
mod line;
mod macro_fault;
mod macros;
mod mark;
mod number;
mod piece;
mod predefined;
mod quote;
mod recent;
mod start;
mod stay;
mod stretch;
mod tokens;

pub use expander::expand;
pub use lex_fault::LexFault;
pub use macro_fault::MacroFault;
pub use tokens::{TEXT_LIMIT, lex};
