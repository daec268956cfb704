//! The world of a run: what it did to the reference counts of objects, and which references escaped.
#![tactic(auto)]

mod access;
mod account;
mod api_call;
mod apply;
mod at_entry;
mod calls;
mod choices;
mod content;
mod counts;
mod effect;
mod escapes;
mod halt;
mod slot;
mod touch;
mod world;

pub use account::Account;
pub use api_call::ApiCall;
pub use content::Content;
pub use effect::Effect;
pub use halt::Halt;
pub use slot::{Slot, SlotState};
pub use world::World;
