//! Files that are made by rule, to try how many functions are judged in what time.
#![tactic(auto)]

mod line;
mod text;

pub use text::trial_text;
