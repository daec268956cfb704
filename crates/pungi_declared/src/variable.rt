use pungi_base::{Name, Pos};
use pungi_tree::{Declr, Spec};

/// A variable or table outside functions (C11 6.9.2).
#[derive(Clone, Copy)]
pub struct Variable<'u> {
    pub spec: &'u Spec,
    pub declr: &'u Declr,
}

/// A name and where it stands.
#[derive(Clone, Copy)]
pub struct Place {
    pub name: Name,
    pub pos: Pos,
}
