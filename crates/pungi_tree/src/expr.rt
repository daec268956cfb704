use crate::TypeName;
use pungi_base::{Kind, Name, Pos, Punct};

/// An expression (C11 6.5). Its place is that of its operator, and of its first token where it has none.
///
/// From the loosest to the tightest, where a level takes in each that is tighter:
///
/// ```text
/// expr    = assign | expr "," assign
/// assign  = cond | unary ("=" | "+=" | "-=" | "*=" | "/=" | "%=" | "<<=" | ">>=" | "&=" | "^=" | "|=") assign
/// cond    = binary | binary "?" expr ":" cond
/// binary  = cast, or two of them with an operator between, all to the left, by these levels:
///           "||"; "&&"; "|"; "^"; "&"; "==" "!="; "<" ">" "<=" ">="; "<<" ">>"; "+" "-"; "*" "/" "%"
/// cast    = unary | "(" typename ")" cast
/// unary   = postfix | ("++" | "--" | "sizeof") unary | ("&" | "*" | "+" | "-" | "~" | "!") cast
///         | "sizeof" "(" typename ")"
/// postfix = primary | postfix "(" (assign ("," assign)*)? ")" | postfix "[" expr "]"
///         | postfix "." word | postfix "->" word | postfix "++" | postfix "--"
/// primary = word | number | character | text+ | "NULL" | "(" expr ")"
///         | "PyObject_New" "(" typename "," assign ")"
/// ```
#[cycle(tree)]
pub struct Expr {
    pub pos: Pos,
    pub node: ExprNode,
}

impl Drop for Expr {
    #[cycle(tree)]
    fn drop(self) {
        let Expr { pos: _, node: _ } = self;
    }
}

/// What an expression is made of.
#[cycle(tree)]
pub enum ExprNode {
    /// `word`, no type word.
    Word(Name),
    /// An integer constant.
    Int {
        value: i128,
        long: bool,
        unsigned: bool,
    },
    /// A floating constant.
    Float,
    /// `character`.
    Char(u8),
    /// `text+`.
    Text(Vec<Name>),
    /// `"NULL"`.
    Null,
    /// `"(" expr ")"`.
    Paren(Box<Expr>),
    /// `("++" | "--" | "sizeof") unary | ("&" | "*" | "+" | "-" | "~" | "!") cast`.
    Unary(Kind, Box<Expr>),
    /// `postfix ("++" | "--")`.
    Post(Punct, Box<Expr>),
    /// Two operands with a binary operator between.
    Binary(Punct, Box<Expr>, Box<Expr>),
    /// `unary ("=" | "+=" | ..) assign`.
    Assign(Punct, Box<Expr>, Box<Expr>),
    /// `binary "?" expr ":" cond`, at the `?`.
    Cond(Box<Expr>, Box<Expr>, Box<Expr>),
    /// `expr "," assign`.
    Comma(Box<Expr>, Box<Expr>),
    /// `"(" typename ")" cast`, at the parenthesis.
    Cast(Box<TypeName>, Box<Expr>),
    /// `"sizeof" "(" typename ")"`.
    SizeOfType(Box<TypeName>),
    /// `postfix "(" (assign ("," assign)*)? ")"`, at its first token.
    Call(Box<Expr>, Vec<Expr>),
    /// `"PyObject_New" "(" typename "," assign ")"` (Python/C API Reference Manual 3.11,
    /// "Allocating Objects on the Heap").
    New(Box<TypeName>, Box<Expr>),
    /// `postfix "[" expr "]"`, at the bracket.
    Index(Box<Expr>, Box<Expr>),
    /// `postfix "." word`.
    Dot(Box<Expr>, Name),
    /// `postfix "->" word`.
    Arrow(Box<Expr>, Name),
}

impl Drop for ExprNode {
    #[cycle(tree)]
    fn drop(self) {
        match self {
            ExprNode::Word(_)
            | ExprNode::Int {
                value: _,
                long: _,
                unsigned: _,
            }
            | ExprNode::Float
            | ExprNode::Char(_)
            | ExprNode::Text(_)
            | ExprNode::Null
            | ExprNode::Paren(_)
            | ExprNode::Unary(_, _)
            | ExprNode::Post(_, _)
            | ExprNode::Binary(_, _, _)
            | ExprNode::Assign(_, _, _)
            | ExprNode::Cond(_, _, _)
            | ExprNode::Comma(_, _)
            | ExprNode::Cast(_, _)
            | ExprNode::SizeOfType(_)
            | ExprNode::Call(_, _)
            | ExprNode::New(_, _)
            | ExprNode::Index(_, _)
            | ExprNode::Dot(_, _)
            | ExprNode::Arrow(_, _) => {}
        }
    }
}
