//! The law of kinds: in runs of checked functions and of their codes each value is of its kind.
#![tactic(auto)]

mod laws;

pub use laws::{operations_have_kinds, trees_have_kinds, values_have_kinds};
