use pungi_base::{Pos, Rule};

/// A rule, and a place where it holds.
#[derive(Clone, Copy, Debug, PartialEq, Eq)]
pub struct Finding {
    pub pos: Pos,
    pub rule: Rule,
}
