//! Reading what a file consists of (C11 6.9), and the words that its type definitions declare.

pub(crate) mod item_parser;
pub(crate) mod typedef_scan;
