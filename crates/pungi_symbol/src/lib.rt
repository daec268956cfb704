//! Symbolic states: what is known of the runs of a function, with tokens for the pointers that come in.
#![tactic(auto)]

mod answers;
mod questions;
mod runs;
mod states;
mod steps;

pub use answers::decision::Decision;
pub use states::number_places::earliest;
pub use states::obstacle::Obstacle;
pub use states::sym::Sym;
pub use states::sym_end::SymEnd;
pub use steps::{
    end, has_free_run, is_balanced, number_place, run_on, solve, start, step, step_from,
};
