//! What the next instruction asks in a state, and where the slot that it touches is.

pub(crate) mod call_questions;
pub(crate) mod found_slot;
pub(crate) mod next_question;
pub(crate) mod number_questions;
pub(crate) mod question;
pub(crate) mod slot_search;
pub(crate) mod term_questions;
