//! Three-address code: its instructions, what they do, and the executor that does it.
#![tactic(auto)]

mod alone;
mod api;
mod atom;
mod code;
mod execution;
mod frames;
mod heads;
mod instr;
mod perform;
mod place;
mod registers;
mod slots;
mod values;

pub use alone::{runs_alone, stands_alone};
pub use atom::{Atom, Var};
pub use code::{Code, Codes, Head, Line};
pub use execution::code_run;
pub use heads::loop_heads;
pub use instr::{Instr, Label};
pub use place::Place;
