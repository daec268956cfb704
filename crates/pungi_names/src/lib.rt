//! The names of a file: types with their typedefs followed, structs, globals, tables and functions, each found at once.
#![tactic(auto)]

mod called;
mod cores;
mod fields;
mod file_names;
mod first;
mod functions;
mod gather;
mod globals;
mod heads;
mod kinds;
mod meaning;
mod names;
mod numbers;
mod rows;
mod signature;
mod step;
mod tables;
mod typedefs;
mod values;
mod walk;
mod written;

pub use file_names::FileNames;
pub use gather::unit_names;
pub use names::UnitNames;
