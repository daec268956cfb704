/// How a call of the API may end.
#[derive(Clone, Copy)]
pub enum Outcome {
    /// Without a value.
    Nothing,
    Null,
    Object,
    Text,
    Known(i8),
    /// With any number.
    Number,
}
