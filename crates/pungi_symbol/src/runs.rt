//! Where the runs of a function begin, the run that a state shows and its numbers, and whether its balances are level
//! at the return.

pub(crate) mod at_zero;
pub(crate) mod begin;
pub(crate) mod candidate;
pub(crate) mod constraints;
pub(crate) mod model;
pub(crate) mod numbers;
pub(crate) mod opposed;
pub(crate) mod return_balance;
pub(crate) mod witness;
