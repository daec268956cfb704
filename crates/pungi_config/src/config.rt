use pungi_api::{FileTerms, Row};
use pungi_base::Name;

/// What a configuration states.
#[derive(Drop)]
pub struct Config {
    /// The rows that it adds to the table, in the order of the bytes of their names.
    pub rows: Vec<(Name, Row)>,
    /// The profile, and the conventions of functions.
    pub terms: FileTerms,
}
