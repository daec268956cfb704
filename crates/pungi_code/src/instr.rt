use crate::{Atom, Place, Var};
use pungi_api::BoxedSignature;
use pungi_base::Seq;
use pungi_meaning::{Cmp, Op};
use pungi_types::ValueKind;

/// A place in the list of instructions.
#[derive(Clone, Copy, PartialEq, Eq)]
pub struct Label(pub u32);

/// One instruction. What it writes comes first. To read an unset variable stops the run.
#[derive(Drop)]
pub enum Instr {
    /// A copy.
    Set(Var, Atom),
    /// An arithmetic operator in the range of a kind of integers. A result past it stops, and so does a division by 0
    /// (C11 6.5, 6.5.5, 6.5.6).
    Arith(Var, ValueKind, Op, Atom, Atom),
    /// A conversion to a kind of integers. A number past its range stops (C11 6.3.1.3).
    Fit(Var, ValueKind, Atom),
    /// A comparison, which gives 0 or 1 (C11 6.5.8, 6.5.9).
    Compare(Var, Cmp, Atom, Atom),
    /// A slot is read. A base that is `NULL` stops.
    Load(Var, Place),
    /// A slot is written. A base that is `NULL` stops.
    Store(Place, Atom),
    /// A call of the API: where its answer goes, its signature, and its arguments.
    Api(Option<Var>, BoxedSignature, Seq<Atom>),
    /// A call of a function of the file by its number: where its result goes, and its arguments.
    Call(Option<Var>, usize, Seq<Atom>),
    /// The variable holds nothing from now on.
    Unset(Var),
    Jump(Label),
    /// To the first label where the atom is true, to the second otherwise (C11 6.8.4.1).
    Branch(Atom, Label, Label),
    /// The function returns, with a value where it isn't void.
    Return(Option<Atom>),
    /// The end of a function that isn't void: the run stops.
    Fall,
}
