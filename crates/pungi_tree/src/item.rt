use crate::{Decl, Params, Spec, Stmt};
use pungi_base::{Key, Name, Pos};

/// What a file consists of (C11 6.9):
///
/// ```text
/// item = ";" | "PyDoc_STRVAR" "(" word "," text+ ")"
///      | "typedef" type stars word ";"
///      | quals type ";"
///      | quals type var ("," var)* ";"
///      | quals type stars word "(" params ")" (";" | block)
/// ```
///
/// A position beside a name is the name's. `stars` has a number for each `*`, that of the `const` after it.
pub enum Item {
    /// `;`, at its place.
    Empty(Pos),
    /// `"PyDoc_STRVAR" "(" word "," text+ ")"`, the documentation of a method
    /// (Python/C API Reference Manual 3.11, "Useful macros").
    Doc {
        pos: Pos,
        name: Name,
        texts: Vec<Name>,
    },
    /// `"typedef" type stars word ";"`, which makes its word a type word.
    Typedef {
        spec: Spec,
        stars: Vec<u32>,
        name: Name,
        pos: Pos,
    },
    /// `quals type ";"`, which declares no variable.
    Tag {
        quals: Vec<Key>,
        spec: Spec,
    },
    /// `quals type var ("," var)* ";"`.
    Vars(Decl),
    /// A head and `";"`.
    Prototype(Head),
    /// A head and a block.
    Function(FunctionDef),
}

impl Drop for Item {
    fn drop(self) {
        match self {
            Item::Empty(_)
            | Item::Doc {
                pos: _,
                name: _,
                texts: _,
            }
            | Item::Typedef {
                spec: _,
                stars: _,
                name: _,
                pos: _,
            }
            | Item::Tag { quals: _, spec: _ }
            | Item::Vars(_)
            | Item::Prototype(_)
            | Item::Function(_) => {}
        }
    }
}

/// A function without its body (C11 6.7.6.3):
///
/// ```text
/// head = quals type stars word "(" params ")"
/// ```
pub struct Head {
    pub quals: Vec<Key>,
    pub result: Spec,
    pub stars: Vec<u32>,
    pub name: Name,
    pub pos: Pos,
    pub params: Params,
}

impl Drop for Head {
    fn drop(self) {
        let Head {
            quals: _,
            result: _,
            stars: _,
            name: _,
            pos: _,
            params: _,
        } = self;
    }
}

/// A function with its body (C11 6.9.1):
///
/// ```text
/// function = quals type stars word "(" params ")" block
/// ```
pub struct FunctionDef {
    pub quals: Vec<Key>,
    pub result: Spec,
    pub stars: Vec<u32>,
    pub name: Name,
    pub pos: Pos,
    pub params: Params,
    pub body: Stmt,
}

impl Drop for FunctionDef {
    fn drop(self) {
        let FunctionDef {
            quals: _,
            result: _,
            stars: _,
            name: _,
            pos: _,
            params: _,
            body: _,
        } = self;
    }
}
