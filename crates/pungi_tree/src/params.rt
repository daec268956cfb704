use crate::{Declr, Spec};
use pungi_base::{Key, Name, Pos};

/// The parameters of a function (C11 6.7.6.3):
///
/// ```text
/// params = nothing | "void" | param ("," param)* ("," "...")?
/// ```
///
/// `void` says that the lone `void` stands there, and `dots` holds the place of `...`.
#[cycle(tree)]
pub struct Params {
    pub list: Vec<ParamDecl>,
    pub void: bool,
    pub dots: Option<Pos>,
}

impl Drop for Params {
    #[cycle(tree)]
    fn drop(self) {
        let Params {
            list: _,
            void: _,
            dots: _,
        } = self;
    }
}

/// A parameter (C11 6.7.6.3):
///
/// ```text
/// param = quals type (declr | stars | stars "Py_UNUSED" "(" word ")")
/// ```
#[cycle(tree)]
pub struct ParamDecl {
    pub quals: Vec<Key>,
    pub spec: Spec,
    pub declr: ParamDeclr,
}

impl Drop for ParamDecl {
    #[cycle(tree)]
    fn drop(self) {
        let ParamDecl {
            quals: _,
            spec: _,
            declr: _,
        } = self;
    }
}

/// What stands after the type of a parameter. `stars` has a number for each `*`, that of the `const` after it.
#[cycle(tree)]
pub enum ParamDeclr {
    /// `declr`.
    Named(Declr),
    /// `stars`, a parameter without a name.
    Bare(Vec<u32>),
    /// `stars "Py_UNUSED" "(" word ")"`, a parameter that the body does not use, with the place of its name
    /// (Python/C API Reference Manual 3.11, "Useful macros").
    Unused {
        stars: Vec<u32>,
        name: Name,
        pos: Pos,
    },
}

impl Drop for ParamDeclr {
    #[cycle(tree)]
    fn drop(self) {
        match self {
            ParamDeclr::Named(_)
            | ParamDeclr::Bare(_)
            | ParamDeclr::Unused {
                stars: _,
                name: _,
                pos: _,
            } => {}
        }
    }
}
