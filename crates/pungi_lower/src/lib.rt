//! From resolved functions to three-address code: what is known of their layouts, and the codes of a file.
#![tactic(auto)]

mod codes;
mod passed;

pub use codes::lower;
pub use passed::{passed_agree, passed_is_small, passed_is_sound, passed_is_well_formed};
