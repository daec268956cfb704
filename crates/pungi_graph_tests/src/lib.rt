//! Tests of `pungi_shape`: the affine programs of small functions, worked out by hand, line by line.
#![tactic(auto)]

#[cfg(test)]
mod constants;
#[cfg(test)]
mod graph_tests;
#[cfg(test)]
mod lines;
#[cfg(test)]
mod source;
