use crate::Declr;
use pungi_base::{Key, Name, Pos};

/// A type without its pointers (C11 6.7.2):
///
/// ```text
/// type = base "const"*
/// ```
///
/// `pos` is the place of its first token, and `consts` how many `const` stand after the base.
#[cycle(tree)]
pub struct Spec {
    pub pos: Pos,
    pub base: Base,
    pub consts: u32,
}

impl Drop for Spec {
    #[cycle(tree)]
    fn drop(self) {
        let Spec {
            pos: _,
            base: _,
            consts: _,
        } = self;
    }
}

/// What a type begins with (C11 6.7.2, 6.7.2.1 and 6.7.8):
///
/// ```text
/// base = baseword+ | typeword | ("struct" | "union") (word fields? | typeword | fields)
/// ```
///
/// A `baseword` is one of `int long short char unsigned signed float double void _Bool`.
#[cycle(tree)]
pub enum Base {
    /// `baseword+`.
    Words(Vec<Key>),
    /// `typeword`.
    Alias(Name),
    /// `("struct" | "union") (word fields? | typeword | fields)`, the tag with its place.
    Tagged {
        of: Key,
        tag: Option<(Name, Pos)>,
        fields: Option<Vec<Field>>,
    },
}

impl Drop for Base {
    #[cycle(tree)]
    fn drop(self) {
        match self {
            Base::Words(_)
            | Base::Alias(_)
            | Base::Tagged {
                of: _,
                tag: _,
                fields: _,
            } => {}
        }
    }
}

/// A line between the braces of a struct or a union (C11 6.7.2.1):
///
/// ```text
/// fields = "{" (quals type declr ("," declr)* ";" | ";")* "}"
/// ```
#[cycle(tree)]
pub enum Field {
    /// `";"`.
    Empty,
    /// `quals type declr ("," declr)* ";"`.
    Members {
        quals: Vec<Key>,
        spec: Spec,
        declrs: Vec<Declr>,
    },
}

impl Drop for Field {
    #[cycle(tree)]
    fn drop(self) {
        match self {
            Field::Empty
            | Field::Members {
                quals: _,
                spec: _,
                declrs: _,
            } => {}
        }
    }
}

/// The name of a type, in a cast for example (C11 6.7.7):
///
/// ```text
/// typename = type stars
/// stars    = ("*" "const"*)*
/// ```
///
/// `stars` has a number for each `*`, that of the `const` after it.
#[cycle(tree)]
pub struct TypeName {
    pub spec: Spec,
    pub stars: Vec<u32>,
}

impl Drop for TypeName {
    #[cycle(tree)]
    fn drop(self) {
        let TypeName { spec: _, stars: _ } = self;
    }
}
