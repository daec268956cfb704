//! Codes in which each parameter that no instruction names is an `int`, so that they have fewer states to tell apart.
#![tactic(auto)]

mod copies;
mod idle_code;
mod laws;
mod named;
mod restored_run;

pub use idle_code::idle;
pub use laws::{idle_is_well_formed, idle_runs_alike};
pub use restored_run::restored;
