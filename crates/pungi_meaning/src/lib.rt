//! The meaning of checked functions: what each does, step by step.
#![tactic(auto)]

mod arith;
mod call;
mod cmp;
mod condition;
mod counted_world;
mod entry;
mod execution;
mod expr;
mod frames;
mod function;
mod machine;
mod number;
mod op;
mod outcome;
mod output;
mod segments;
mod slot;
mod stack;
mod step;
mod stmt;
mod task;
mod unwind;

pub use cmp::{Cmp, number_of};
pub use condition::{is_true, truth};
pub use counted_world::CountedWorld;
pub use entry::entry_ok;
pub use execution::run;
pub use function::{add_unset, argument_locals};
pub use number::{arithmetic, fits, wide};
pub use op::Op;
pub use outcome::Outcome;
pub use segments::runs_are_segments;
pub use stack::{content_at, note_used, put, unused};
