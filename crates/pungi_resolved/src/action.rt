use crate::Value;
use pungi_base::{Name, Pos};
use pungi_types::ValueKind;

/// A local as its declaration is reached. Without a value it becomes unset.
#[derive(Drop)]
pub struct DeclaredLocal {
    /// Its number among the locals of the function.
    pub number: usize,
    /// The place of its name.
    pub at: Pos,
    /// The kind of its values; `None` where its type has none.
    pub kind: Option<ValueKind>,
    /// What it is initialized with.
    pub value: Option<Box<Value>>,
}

/// What a statement of a checked function does (C11 6.8). Its place is that of the statement.
#[derive(Drop)]
#[cycle(actions)]
pub struct Action {
    pub pos: Pos,
    pub node: ActionNode,
}

/// What an action is made of.
#[derive(Drop)]
#[cycle(actions)]
pub enum ActionNode {
    /// A block: its statements, and the place of its closing brace.
    Block(Vec<Action>, Pos),
    /// A declaration.
    Declare(Vec<DeclaredLocal>),
    /// An expression statement, or `;`.
    Do(Option<Box<Value>>),
    /// `if` without `else`.
    If(Box<Value>, Box<Action>),
    /// `if` with `else`.
    IfElse(Box<Value>, Box<Action>, Box<Action>),
    /// `while`.
    While(Box<Value>, Box<Action>),
    /// `do` and `while`: the body, and the test for another turn.
    DoWhile(Box<Action>, Box<Value>),
    /// `for`: its locals, or what it does first; its test; what it does after its body; and its body.
    For(
        Vec<DeclaredLocal>,
        Option<Box<Value>>,
        Option<Box<Value>>,
        Option<Box<Value>>,
        Box<Action>,
    ),
    /// `switch`.
    Switch(Box<Value>, Box<Action>),
    /// `case`, by the value of its constant.
    Case(i64, Box<Action>),
    /// `default`.
    Default(Box<Action>),
    /// A label.
    Label(Name, Box<Action>),
    /// `goto`.
    Goto(Name),
    /// `break`.
    Break,
    /// `continue`.
    Continue,
    /// `return`: the kind of the function's result, and the value.
    Return(Option<ValueKind>, Option<Box<Value>>),
}
