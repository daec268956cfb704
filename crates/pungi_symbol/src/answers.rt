//! Which answers a question still has, and what a state becomes by each of them.

pub(crate) mod answers_left;
pub(crate) mod balance_changes;
pub(crate) mod decision;
pub(crate) mod known_after;
pub(crate) mod limits;
pub(crate) mod outcomes;
pub(crate) mod perform;
pub(crate) mod successors;
