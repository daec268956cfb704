//! Shapes: what a point of a code keeps of the variables, slots and objects of a run, and the affine program of a code,
//! whose places are the pairs of a point and a shape.
#![tactic(auto)]

mod affine_graph;
mod all_classes;
mod arrival;
mod arrivals;
mod call_edges;
mod callers;
mod calls;
mod case;
mod cases;
mod catalog;
mod classes;
mod comparisons;
mod edge;
mod edge_order;
mod edges;
mod entries;
mod exit_widths;
mod exits;
mod factors;
mod form;
mod found_edge;
mod graph_fault;
mod holding;
mod joins;
mod kept;
mod keys;
mod leaving;
mod liveness;
mod merges;
mod named;
mod numbering;
mod numbers;
mod outcome;
mod parts;
mod place;
mod point;
mod programs;
mod reaching;
mod safe;
mod scene;
mod scenes;
mod search;
mod shape;
mod shapes;
mod skips;
mod slots;
mod statics;
mod steps;
mod tracked;
mod widths;

pub use affine_graph::{graph, graph_among};
pub use all_classes::exit_classes;
pub use arrival::Arrival;
pub use case::{Case, Onward};
pub use classes::Classes;
pub use edge::{Change, Edge, Goal};
pub use form::Form;
pub use graph_fault::GraphFault;
pub use holding::Holding;
pub use liveness::Liveness;
pub use numbering::Numbering;
pub use outcome::Outcome;
pub use place::Place;
pub use point::Point;
pub use reaching::{callees_are_called, calls_fit_programs, functions_are_reached};
pub use safe::{
    safe_is_balanced, safe_rows_are_balanced, values_are_balanced, values_are_balanced_among,
};
pub use scene::Scene;
pub use shape::Shape;
pub use tracked::{Spot, Tracked};
