//! Instructions one after another, and their places.

pub(crate) mod instructions;
