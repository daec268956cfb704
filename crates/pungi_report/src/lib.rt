//! The text of the report: what is said of each function, with the run that shows a fault.
#![tactic(auto)]

mod fits;
mod same;
mod text;

pub use same::report_is_read_back;
pub use text::report;
