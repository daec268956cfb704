//! Spans of vectors of whole numbers, with exact arithmetic within 128 bits: the abstract domain of affine relations
//! (Karr
//! 1976), on vectors whose leading coordinate stands for the constant.
#![tactic(auto)]

mod add;
mod divisor;
mod extend;
mod form;
mod image;
mod join;
mod meet;
mod part;
mod reduce;
mod residual;
mod row;
mod span;
mod sum;
mod unit;

pub use span::Span;
