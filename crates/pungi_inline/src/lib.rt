//! Codes with copies of the codes that they call in the place of calls.
#![tactic(auto)]

mod alone;
mod copies;
mod expanded;
mod first_calls;
mod inlined;
mod laws;
mod moved;
mod places;
mod sites;

pub use alone::one_code;
pub use first_calls::first_call;
pub use inlined::inline;
pub use laws::{inlined_is_well_formed, inlined_runs_alike};
