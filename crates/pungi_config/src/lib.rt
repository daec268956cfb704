//! What a call of the command asks for: its words, read by `clap`, and what its configuration states, read by `toml`:
//! the rows that it adds to the table, and the terms under which functions are judged.
#![tactic(auto)]

mod asked;
mod command;
mod config;
mod config_fault;
mod configuration;
mod conventions;
mod keys;
mod limits;
mod takes;
mod words;
mod words_fault;
mod wrong;

pub use asked::Settings;
pub use command::settings;
pub use config::Config;
pub use config_fault::ConfigFault;
pub use configuration::rows;
pub use limits::{CONFIG_LIMIT, limits_are_those_stated};
pub use words_fault::WordsFault;
