//! Reading types, declarators and parameters (C11 6.7.2 to 6.7.7).

pub(crate) mod declr;
pub(crate) mod nodes;
pub(crate) mod params;
pub(crate) mod spec;
pub(crate) mod type_words;
