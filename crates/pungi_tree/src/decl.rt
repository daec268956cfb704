use crate::{Declr, Expr, Spec};
use pungi_base::{Key, Kind, Pos};

/// A declaration of variables (C11 6.7):
///
/// ```text
/// decl  = quals type var ("," var)* ";"
/// quals = ("static" | "extern" | "inline" | "const" | "volatile" | "register")*
/// ```
pub struct Decl {
    pub quals: Vec<Key>,
    pub type_name: Spec,
    pub vars: Vec<VarDecl>,
}

impl Drop for Decl {
    fn drop(self) {
        let Decl {
            quals: _,
            type_name: _,
            vars: _,
        } = self;
    }
}

/// A declared variable with its first value (C11 6.7):
///
/// ```text
/// var = declr ("=" (assign | "{" balanced "}"))?
/// ```
pub struct VarDecl {
    pub declr: Declr,
    pub value: Option<Init>,
}

impl Drop for VarDecl {
    fn drop(self) {
        let VarDecl { declr: _, value: _ } = self;
    }
}

/// The first value of a variable, after its `=` (C11 6.7.9).
pub enum Init {
    /// `assign`.
    Value(Expr),
    /// `"{" balanced "}"`: the tokens between the braces, with their places. Their brackets match.
    Table(Vec<(Kind, Pos)>),
}

impl Drop for Init {
    fn drop(self) {
        match self {
            Init::Value(_) | Init::Table(_) => {}
        }
    }
}
