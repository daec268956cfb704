//! The places that statements lead to, found before their instructions are made.

pub(crate) mod counts;
pub(crate) mod labels;
pub(crate) mod plan;
pub(crate) mod reserved_places;
pub(crate) mod scope;
pub(crate) mod survey;
