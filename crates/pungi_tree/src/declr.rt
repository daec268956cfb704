use crate::{Expr, Params};
use pungi_base::{Name, Pos};

/// A declarator: a declared name with its pointers, and what stands after it (C11 6.7.6):
///
/// ```text
/// declr = stars word ("[" expr? "]")* | stars "(" "*" word ")" "(" params ")"
/// ```
///
/// `stars` has a number for each `*` in front, that of the `const` after it. `pos` is the name's place.
#[cycle(tree)]
pub struct Declr {
    pub stars: Vec<u32>,
    pub name: Name,
    pub pos: Pos,
    pub tail: Tail,
}

impl Drop for Declr {
    #[cycle(tree)]
    fn drop(self) {
        let Declr {
            stars: _,
            name: _,
            pos: _,
            tail: _,
        } = self;
    }
}

/// What a declarator declares (C11 6.7.6.2 and 6.7.6.3).
#[cycle(tree)]
pub enum Tail {
    /// `word ("[" expr? "]")*`, a variable or an array.
    Sizes(Vec<Option<Expr>>),
    /// `"(" "*" word ")" "(" params ")"`, a pointer to a function.
    Function(Params),
}

impl Drop for Tail {
    #[cycle(tree)]
    fn drop(self) {
        match self {
            Tail::Sizes(_) | Tail::Function(_) => {}
        }
    }
}
