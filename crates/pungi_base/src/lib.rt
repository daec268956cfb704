//! What all crates of Pungi speak of: names, tokens, values, runs, and verdicts.
#![tactic(auto)]

mod builtin;
mod choice;
mod entry;
mod fault;
mod key;
mod kind;
mod memory;
mod names;
mod pos;
mod punct;
mod rule;
mod seq;
mod token;
mod value;
mod verdict;
mod why;
mod witness;
pub mod words;

pub use choice::Choice;
pub use entry::Entry;
pub use fault::Fault;
pub use key::Key;
pub use kind::Kind;
pub use memory::Memory;
pub use names::{Name, Names};
pub use pos::Pos;
pub use punct::Punct;
pub use rule::Rule;
pub use seq::Seq;
pub use token::Token;
pub use value::Value;
pub use verdict::Verdict;
pub use why::Why;
pub use witness::Witness;
