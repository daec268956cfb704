//! What the symbolic states of a function show of all its runs.
#![tactic(auto)]

mod explored;
mod limit;
mod search;
mod seen;
mod visit;
mod visited;

pub use explored::Explored;
pub use limit::few_or_many;
pub use search::explore;
