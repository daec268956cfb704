//! The outside as a shelf to read texts from and a sink to write to, and what passed between.
#![tactic(auto)]

mod history;
mod opened_text;
mod shelf;
mod sink;

pub use history::History;
pub use opened_text::{OpenedText, read_last};
pub use shelf::{Failed, OpenFault, Shelf};
pub use sink::Sink;
