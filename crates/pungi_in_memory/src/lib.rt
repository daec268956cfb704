//! Shelves and sinks in memory, which stand for the outside in tests.
#![tactic(auto)]

mod mem_shelf;
mod mem_sink;
mod sure_shelf;
mod sure_sink;

pub use mem_shelf::MemShelf;
pub use mem_sink::MemSink;
pub use sure_shelf::SureShelf;
pub use sure_sink::SureSink;
