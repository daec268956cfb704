//! Tests of `pungi_fixpoint` over spans and over constants, and of `pungi_summary`. They show that their calls succeed.
#![tactic(auto)]

#[cfg(test)]
mod programs;
#[cfg(test)]
mod solver_tests;
#[cfg(test)]
mod summaries_tests;
#[cfg(test)]
mod summarise_tests;
