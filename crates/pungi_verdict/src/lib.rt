//! The verdict on each function of a checked file. What is explored is its code, with copies of the codes that it calls
//! in the place of calls; a fault that is found there is run again by the meaning of the function itself. Where
//! exploring leaves a function open, linear equations between its numbers may show that it is clean, or such equations
//! across all functions that it reaches by calls.
#![tactic(auto)]

mod across;
mod judge;
mod judge_across;
mod judge_code;
mod relations;
mod replay;

pub use judge::judge_all;
