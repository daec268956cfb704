//! Trees that no file has: each breaks one rule of the grammar.

use pungi_base::words::PY_OBJECT;
use pungi_base::{Key, Kind, Name, Pos, Punct};
use pungi_tree::{
    Base, Expr, ExprNode, FunctionDef, Item, Params, Spec, Stmt, StmtNode, TypeName, Unit,
};
use std::alloc::{AllocError, Global};

/// Places are of no account here.
const AT: Pos = Pos { line: 1, col: 1 };

pub(crate) const A: Name = Name(200);

pub(crate) const B: Name = Name(201);

pub(crate) const F: Name = Name(202);
/// The word of a `typedef`.
pub(crate) const T: Name = Name(203);

fn expr(node: ExprNode) -> Expr {
    Expr { pos: AT, node }
}

fn stmt(node: StmtNode) -> Stmt {
    Stmt { pos: AT, node }
}

fn alias(name: Name) -> Spec {
    Spec {
        pos: AT,
        base: Base::Alias(name),
        consts: 0,
    }
}

fn minus(a: Box<Expr>, b: Box<Expr>) -> ExprNode {
    ExprNode::Binary(Punct::Minus, a, b)
}

fn boxed(alloc: Global, node: ExprNode) -> Result<Box<Expr>, AllocError> {
    Ok(Box::new(alloc, expr(node))?)
}

fn word(alloc: Global, name: Name) -> Result<Box<Expr>, AllocError> {
    boxed(alloc, ExprNode::Word(name))
}

/// `return value;`.
fn returned(node: ExprNode) -> Stmt {
    stmt(StmtNode::Return(Some(expr(node))))
}

/// `return a;`, where the word is `a`.
pub(crate) fn of_word(name: Name) -> Stmt {
    returned(ExprNode::Word(name))
}

/// `return ;`, where a text of no part stands.
pub(crate) fn of_no_text(alloc: Global) -> Stmt {
    returned(ExprNode::Text(Vec::new(alloc)))
}

fn difference(alloc: Global) -> Result<Box<Expr>, AllocError> {
    let (a, b) = (word(alloc, A)?, word(alloc, B)?);
    boxed(alloc, minus(a, b))
}

/// `return f - (a - b);` without its parentheses.
pub(crate) fn to_the_right(alloc: Global) -> Result<Stmt, AllocError> {
    let (f, right) = (word(alloc, F)?, difference(alloc)?);
    Ok(returned(minus(f, right)))
}

/// `(T)NULL`.
fn cast(alloc: Global) -> Result<Box<Expr>, AllocError> {
    let null = boxed(alloc, ExprNode::Null)?;
    let name = TypeName {
        spec: alias(T),
        stars: Vec::new(alloc),
    };
    boxed(alloc, ExprNode::Cast(Box::new(alloc, name)?, null))
}

/// `return sizeof ((T)NULL);` without its outer parentheses.
pub(crate) fn size_of_cast(alloc: Global) -> Result<Stmt, AllocError> {
    let operand = cast(alloc)?;
    Ok(returned(ExprNode::Unary(Kind::Key(Key::Sizeof), operand)))
}

/// `return < a;`.
pub(crate) fn prefix_less(alloc: Global) -> Result<Stmt, AllocError> {
    let operand = word(alloc, A)?;
    Ok(returned(ExprNode::Unary(Kind::Punct(Punct::Less), operand)))
}

fn boxed_stmt(alloc: Global, node: StmtNode) -> Result<Box<Stmt>, AllocError> {
    Ok(Box::new(alloc, stmt(node))?)
}

/// `if (a) { if (a) ; } else ;` without its braces.
pub(crate) fn else_to_the_outer(alloc: Global) -> Result<Stmt, AllocError> {
    let then = boxed_stmt(alloc, StmtNode::Do(None))?;
    let inner = boxed_stmt(alloc, StmtNode::If(expr(ExprNode::Word(A)), then, None))?;
    let otherwise = boxed_stmt(alloc, StmtNode::Do(None))?;
    let test = expr(ExprNode::Word(A));
    Ok(stmt(StmtNode::If(test, inner, Some(otherwise))))
}

/// A name before `break;`.
pub(crate) fn label(alloc: Global, name: Name) -> Result<Stmt, AllocError> {
    let inner = boxed_stmt(alloc, StmtNode::Break)?;
    Ok(stmt(StmtNode::Label(name, inner)))
}

/// `typedef PyObject T;`.
fn typedef(alloc: Global) -> Item {
    Item::Typedef {
        spec: alias(Name(PY_OBJECT)),
        stars: Vec::new(alloc),
        name: T,
        pos: AT,
    }
}

/// `PyObject f(void)` with these statements.
fn function(alloc: Global, list: Vec<Stmt>) -> Item {
    Item::Function(FunctionDef {
        quals: Vec::new(alloc),
        result: alias(Name(PY_OBJECT)),
        stars: Vec::new(alloc),
        name: F,
        pos: AT,
        params: Params {
            list: Vec::new(alloc),
            void: true,
            dots: None,
        },
        body: stmt(StmtNode::Block(list, AT)),
    })
}

/// A file of a type definition and a function of one statement.
pub(crate) fn file_of(alloc: Global, body: Stmt) -> Result<Unit, AllocError> {
    let list = vec![in alloc; body]?;
    let items = vec![in alloc; typedef(alloc), function(alloc, list)]?;
    Ok(Unit { items })
}
