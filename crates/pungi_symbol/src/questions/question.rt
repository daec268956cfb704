use crate::answers::decision::Decision;
use crate::states::mark::Mark;
use crate::states::sum::Sum;
use crate::states::term::Term;
use pungi_api::Answer;
use pungi_meaning::Op;
use pungi_types::ValueKind;

/// What a run is asked next.
#[derive(Clone, Copy)]
pub enum Question {
    /// The work of the instruction is done, with this one answer.
    Does(Decision),
    /// A slot is touched for the first time and loaded; its content has this mark.
    Touches(Mark),
    /// A slot is touched for the first time and written; whether the content at entry, which has this mark, is `NULL`.
    Overwrites(Mark),
    /// Whether a token is `NULL`.
    Null(usize),
    /// Whether the token of a base is that of the touched slot at this place, or of the object that was made.
    Base(usize, usize, usize),
    /// What a call returns.
    Answers(Answer),
    /// Whether two tokens that are compared are the same object.
    Same(usize, usize),
    /// How two numbers compare.
    Orders(Sum, Sum),
    /// Whether a number is below the range of a kind, within it or above it.
    Range(ValueKind, Sum),
    /// Whether the result of an operator that is no sum is below the range of a kind, within it or above it.
    Computes(ValueKind, Op, Sum, Sum),
    /// Nothing: a pointer is compared with a number, or converted.
    Unplain,
    /// Nothing: a loop's head is reached, or the path is as long as it may be.
    Turn,
    /// The function returns this.
    Returns(Option<Term>),
    /// The run stops, with this one answer.
    Stops(Decision),
    /// Nothing: the run is over.
    Over,
}
