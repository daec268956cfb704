//! Affine programs over vectors of whole numbers, and the abstract domains that describe sets of such vectors: the
//! trait of a domain with its laws, and the domain of one constant a coordinate (Karr 1976; Kildall 1973).
#![tactic(auto)]

mod action;
mod affine_edge;
mod affine_program;
mod constants;
mod domain;
mod domain_fault;
mod equation;
mod flat;
mod matrix;
mod target;
mod well_formed;

pub use action::Action;
pub use affine_edge::AffineEdge;
pub use affine_program::AffineProgram;
pub use domain::{Domain, LeastDomain};
pub use domain_fault::DomainFault;
pub use equation::Equation;
pub use flat::Flat;
pub use matrix::Matrix;
pub use target::Target;
pub use well_formed::is_well_formed;
