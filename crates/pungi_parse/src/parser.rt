use crate::stop::Stop;
use crate::types::type_words::TypeWords;
use pungi_base::Token;
use std::alloc::Global;

/// A tree, the greatest number of nodes of expressions on a path of it, and the tokens after it.
pub(crate) type Read<'t, T> = Result<(T, u32, &'t [Token]), Stop>;

/// What reads the parts of a tree.
#[derive(Clone, Copy)]
pub(crate) struct Parser<'a> {
    pub(crate) alloc: Global,
    /// The type words of the file.
    pub(crate) types: &'a TypeWords,
    /// How many expressions, types and lists of parameters may stand in each other.
    pub(crate) nest: usize,
    /// How many nodes of expressions a path may have.
    pub(crate) most: u32,
}
