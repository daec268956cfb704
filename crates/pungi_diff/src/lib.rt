//! Difference-bound constraints between numbered unknowns, held together with values that meet them, or refused with a
//! cycle that no values can meet.
#![tactic(auto)]

mod bounds;
mod constraint;
mod cycle;
mod held;
mod laws;
mod round;
mod search;

pub use bounds::Bounds;
pub use constraint::Constraint;
pub use cycle::Cycle;
pub use laws::rounds_forbid_solutions;
