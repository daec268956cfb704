use pungi_base::{Name, Pos};

/// What a name outside functions stands for.
#[derive(Clone, Copy)]
pub(crate) enum Use {
    Function,
    Variable,
    Table,
}

/// A name outside functions, where it stands, and what for (C11 6.9).
#[derive(Clone, Copy)]
pub(crate) struct NameUse {
    pub(crate) name: Name,
    pub(crate) pos: Pos,
    pub(crate) as_what: Use,
}
