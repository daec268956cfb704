//! Tests of the crates below the program: the worlds, the meaning, the code and the states of functions, and the
//! domains. They show what no clause says, each in a file named for its crate. What is said of whole files stands in
//! the tests of `pungi`.
#![tactic(auto)]

#[cfg(test)]
mod affine_tests;
#[cfg(test)]
mod call_tests;
#[cfg(test)]
mod code_tests;
#[cfg(test)]
mod diff_tests;
#[cfg(test)]
mod domain_tests;
#[cfg(test)]
mod equations;
#[cfg(test)]
mod explore_tests;
#[cfg(test)]
mod links_tests;
#[cfg(test)]
mod lower_tests;
#[cfg(test)]
mod meaning_tests;
#[cfg(test)]
mod report_tests;
#[cfg(test)]
mod resolve_tests;
#[cfg(test)]
mod source;
#[cfg(test)]
mod symbol_tests;
#[cfg(test)]
mod world_call_tests;
#[cfg(test)]
mod world_slot_tests;
#[cfg(test)]
mod world_table;
#[cfg(test)]
mod world_tests;
