use indexmap::IndexSet;
use pungi_api::{FileTerms, Table};
use pungi_base::{Name, Names, Seq};
use pungi_resolved::Function;
use pungi_tree::Unit;
use pungi_types::Finding;

/// A unit, with what is found of each of its functions.
#[derive(Drop)]
pub struct Checked<'u> {
    /// The texts of names.
    pub texts: &'u Names,
    pub unit: &'u Unit,
    /// The rows of the API.
    pub rows: &'u Table,
    /// The terms under which the functions are judged.
    pub terms: &'u FileTerms,
    /// The names of the functions that the unit defines, in their order.
    pub names: Seq<Name>,
    /// The names of the refused functions.
    pub refused: IndexSet<u32>,
    /// The finding of each function.
    pub refusals: Vec<Option<Finding>>,
    /// What each function does in which no rule holds.
    pub resolved: Vec<Option<Function>>,
    /// How many static objects there are before a run: those of Python, and the file's type objects, 2^30 at most.
    pub statics: u32,
}
