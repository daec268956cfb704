/// A variable of a code, by its place in the list of variables.
#[derive(Clone, Copy)]
pub struct Var(pub u32);

/// What an instruction takes: a variable, or a constant.
#[derive(Clone, Copy)]
pub enum Atom {
    Var(Var),
    Int(i64),
    /// `NULL`.
    Null,
    Text,
    /// A static object, by its number.
    Static(u32),
}
