//! A file and its functions are checked: names that it may not use twice, the finding of each function, the least set
//! of refused functions, and what each function does in which no rule holds.
#![tactic(auto)]

mod call_node;
mod callers;
mod calls;
mod check_unit;
mod checked;
mod defined;
mod fault;
mod file_faults;
mod graph;
mod name_use;
mod refusals;
mod refused_words;
mod resolutions;
mod seen_tags;
mod seen_uses;
mod typedef_words;
mod unit_uses;
mod worklist;

pub use check_unit::check;
pub use checked::Checked;
pub use fault::UnitFault;
