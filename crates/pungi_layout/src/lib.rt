//! The layout of functions as three-address code: which instructions a function has, and the laws that hold of them.
#![tactic(auto)]

mod alike;
mod kinds;
mod mark;

pub use alike::{layout_is_alike, layout_keeps_nothing};
pub use kinds::{layout_is_well_formed, layouts_agree};
pub use mark::Mark;
