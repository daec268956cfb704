//! From an affine program to its least annotation: a fixpoint over any domain, found by a queue of places (Kildall
//! 1973; Karr 1976).
#![tactic(auto)]

mod action;
mod annotation;
mod check;
mod duties;
mod duty_kind;
mod fix_fault;
mod guard;
mod settle;
mod solver;
mod sources;
mod stage;
mod state;
mod summaries;
mod turn;

pub use annotation::Annotation;
pub use check::check_duties;
pub use duty_kind::DutyKind;
pub use fix_fault::FixFault;
pub use solver::{annotate, solve};
pub use state::State;
pub use summaries::Summaries;
