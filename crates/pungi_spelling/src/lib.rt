//! What a syntax tree spells: its tokens from left to right, whether it is one that the grammar has, and how deep it
//! is.
#![tactic(auto)]

mod balanced;
mod expr_depth;
mod expr_flat;
mod expr_levels;
mod operators;
mod stmt_depth;
mod stmt_flat;
mod stmt_levels;
mod tokens;
mod type_words;
mod unit_depth;
mod unit_flat;
mod unit_levels;

pub use unit_depth::depth;
pub use unit_flat::flat;
pub use unit_levels::levels_ok;
