//! The formats of the calls that take arguments apart and that build values: which units they have, and what is wrong
//! with those that aren't (Python/C API Reference Manual 3.11, 'Parsing arguments and building values').
#![tactic(auto)]

mod format_fault;
mod in_format;
mod in_unit;
mod out_format;
mod out_unit;

pub use format_fault::FormatFault;
pub use in_format::{InFormat, parse_units};
pub use in_unit::InUnit;
pub use out_format::build_units;
pub use out_unit::OutUnit;
