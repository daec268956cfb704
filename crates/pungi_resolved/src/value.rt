use crate::{CalledFunction, OutputStep};
use pungi_api::BoxedSignature;
use pungi_base::{Kind, Name, Pos, Punct, Seq};
use pungi_types::ValueKind;

/// What an expression of a checked function does (C11 6.5), one node for each node of the text and one for each
/// conversion. Its place is that of the node in the text.
#[derive(Drop)]
#[cycle(values)]
pub struct Value {
    pub pos: Pos,
    pub node: ValueNode,
}

/// What a value is made of. A kind is that of the result, except where something else is said.
#[derive(Drop)]
#[cycle(values)]
pub enum ValueNode {
    /// An integer constant or a character, by its value.
    Constant(i64),
    /// A string literal, by its parts.
    Text(Vec<Name>),
    /// `NULL`.
    Null,
    /// A static object, by its number.
    Static(u32),
    /// `&` of a module table.
    Module(Name),
    /// The value of a place, which has that kind.
    Read(ValueKind, Place),
    /// A parenthesis.
    Inner(Box<Value>),
    /// `+` and `-`.
    Signed(Kind, ValueKind, Box<Value>),
    /// `!`.
    Negated(Box<Value>),
    /// `++` and `--`, after the operand where true.
    Stepped(bool, Kind, ValueKind, Place),
    /// What a place held, which holds `NULL` from then on, with the kind of the place.
    Emptied(ValueKind, Place),
    /// An arithmetic operator between two operands, in the kind of the arithmetic.
    Computed(Punct, ValueKind, Box<Value>, Box<Value>),
    /// A comparison.
    Compared(Punct, Box<Value>, Box<Value>),
    /// `&&` and `||`.
    Joined(Punct, Box<Value>, Box<Value>),
    /// `=`, with the kind of the place.
    Stored(ValueKind, Place, Box<Value>),
    /// `+=` and its kin: the kind of the arithmetic, and that of the place.
    Updated(Punct, ValueKind, ValueKind, Place, Box<Value>),
    /// `?:`.
    Chosen(Box<Value>, Box<Value>, Box<Value>),
    /// A conversion to another integer kind.
    Converted(ValueKind, Box<Value>),
    /// A cast that converts nothing.
    Cast(Box<Value>),
    /// A cast to `void`.
    Dropped(Box<Value>),
    /// A call of a function of the file.
    Called(CalledFunction, Vec<Value>),
    /// A call of the API, with its signature.
    CalledRow(Name, BoxedSignature, Vec<Value>),
    /// A call of the API that returns `NULL` where an argument that is an object is `NULL`.
    CalledUnlessNull(Name, BoxedSignature, Vec<Value>),
    /// A call of the API that ends with a number, after which these steps come.
    CalledWithOutputs(Name, BoxedSignature, Vec<Value>, Seq<OutputStep>),
}

/// What can be read and assigned to.
#[derive(Drop)]
#[cycle(values)]
pub enum Place {
    /// A local, by its number.
    Local(Pos, usize),
    /// A variable of the file.
    Global(Pos, Name),
    /// The place of `->`, the base, the name of its struct and the field.
    Field(Pos, Box<Value>, Name, Name),
}
