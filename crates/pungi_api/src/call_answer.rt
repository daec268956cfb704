use crate::Answer;

/// What a call returns.
#[derive(Clone, Copy)]
pub enum CallAnswer {
    /// What a row can say of it.
    Of(Answer),
    /// Its first argument.
    Argument,
}
