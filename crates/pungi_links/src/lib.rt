//! Rings and a queue of numbers, linked by index: once made, they change without memory.
#![tactic(auto)]

mod chains;
mod pending;

pub use chains::Chains;
pub use pending::Pending;
