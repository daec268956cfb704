//! Syntax trees of a file, and the grammar of C that they spell (`specs`).
//!
//! A derived `Drop` is proved again in each crate that drops a tree, so each type writes its own, which is proved here.
#![tactic(auto)]

mod decl;
mod declr;
mod expr;
mod item;
mod params;
mod spec;
mod stmt;
mod unit;

pub use decl::{Decl, Init, VarDecl};
pub use declr::{Declr, Tail};
pub use expr::{Expr, ExprNode};
pub use item::{FunctionDef, Head, Item};
pub use params::{ParamDecl, ParamDeclr, Params};
pub use spec::{Base, Field, Spec, TypeName};
pub use stmt::{ForHead, ForStart, Stmt, StmtNode};
pub use unit::Unit;
