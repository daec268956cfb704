//! Summaries of functions that call each other, over recursion: what the runs of each leave at its exit classes, and
//! whether its annotation is safe, over any domain (Kildall 1973; Karr 1976).
#![tactic(auto)]

mod attempt;
mod call_places;
mod call_site;
mod callable;
mod failing;
mod first_entry;
mod outcome;
mod settle;
mod sites;
mod solver;
mod starts;
mod states;
mod step;
mod values;
mod walk;
mod way;

pub use callable::are_callable;
pub use solver::summarise;
