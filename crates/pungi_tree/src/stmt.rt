use crate::{Decl, Expr};
use pungi_base::{Name, Pos};

/// A statement, or a declaration among statements (C11 6.8). Its place is that of its first token.
///
/// ```text
/// block = "{" (decl | stmt)* "}"
/// stmt  = block | expr? ";" | "if" "(" expr ")" stmt ("else" stmt)?
///       | "while" "(" expr ")" stmt | "do" stmt "while" "(" expr ")" ";"
///       | "for" "(" (decl | expr? ";") expr? ";" expr? ")" stmt
///       | "switch" "(" expr ")" stmt | "case" cond ":" stmt | "default" ":" stmt
///       | word ":" stmt | "goto" word ";" | "break" ";" | "continue" ";"
///       | "return" expr? ";"
/// ```
///
/// An `else` belongs to the nearest `if` (C11 6.8.4.1).
#[cycle(statements)]
pub struct Stmt {
    pub pos: Pos,
    pub node: StmtNode,
}

impl Drop for Stmt {
    #[cycle(statements)]
    fn drop(self) {
        let Stmt { pos: _, node: _ } = self;
    }
}

/// What a statement is made of.
#[cycle(statements)]
pub enum StmtNode {
    /// `"{" (decl | stmt)* "}"`, with the place of its closing brace.
    Block(Vec<Stmt>, Pos),
    /// `decl`, directly in a block.
    Declare(Decl),
    /// `expr? ";"`.
    Do(Option<Expr>),
    /// `"if" "(" expr ")" stmt ("else" stmt)?`.
    If(Expr, Box<Stmt>, Option<Box<Stmt>>),
    /// `"while" "(" expr ")" stmt`.
    While(Expr, Box<Stmt>),
    /// `"do" stmt "while" "(" expr ")" ";"`.
    DoWhile(Box<Stmt>, Expr),
    /// `"for" "(" (decl | expr? ";") expr? ";" expr? ")" stmt`.
    For(Box<ForHead>, Box<Stmt>),
    /// `"switch" "(" expr ")" stmt`.
    Switch(Expr, Box<Stmt>),
    /// `"case" cond ":" stmt`.
    Case(Expr, Box<Stmt>),
    /// `"default" ":" stmt`.
    Default(Box<Stmt>),
    /// `word ":" stmt`.
    Label(Name, Box<Stmt>),
    /// `"goto" word ";"`, with the place of the word.
    Goto(Name, Pos),
    /// `"break" ";"`.
    Break,
    /// `"continue" ";"`.
    Continue,
    /// `"return" expr? ";"`.
    Return(Option<Expr>),
}

impl Drop for StmtNode {
    #[cycle(statements)]
    fn drop(self) {
        match self {
            StmtNode::Block(_, _)
            | StmtNode::Declare(_)
            | StmtNode::Do(_)
            | StmtNode::If(_, _, _)
            | StmtNode::While(_, _)
            | StmtNode::DoWhile(_, _)
            | StmtNode::For(_, _)
            | StmtNode::Switch(_, _)
            | StmtNode::Case(_, _)
            | StmtNode::Default(_)
            | StmtNode::Label(_, _)
            | StmtNode::Goto(_, _)
            | StmtNode::Break
            | StmtNode::Continue
            | StmtNode::Return(_) => {}
        }
    }
}

/// What stands between the parentheses of a `for` (C11 6.8.5.3).
pub struct ForHead {
    pub start: ForStart,
    pub test: Option<Expr>,
    pub step: Option<Expr>,
}

impl Drop for ForHead {
    fn drop(self) {
        let ForHead {
            start: _,
            test: _,
            step: _,
        } = self;
    }
}

/// What a `for` begins with (C11 6.8.5.3): `decl | expr? ";"`.
pub enum ForStart {
    /// `decl`.
    Decl(Decl),
    /// `expr? ";"`.
    Expr(Option<Expr>),
}

impl Drop for ForStart {
    fn drop(self) {
        match self {
            ForStart::Decl(_) | ForStart::Expr(_) => {}
        }
    }
}
