use crate::states::integer_range::IntegerRange;

/// What is known of the value of a token.
#[derive(Clone, Copy)]
pub enum Mark {
    /// An object or `NULL`, which wasn't asked yet.
    Pointer,
    /// A text or `NULL`, which wasn't asked yet.
    TextPointer,
    IsNull,
    IsObject,
    IsText,
    IsNumber(i64),
    /// How an argument parser ended: it converted so many units, or it failed after some, where a number below 0 is one
    /// less than minus so many.
    IsConverted(i64),
    /// Some number of this range.
    Integer(IntegerRange),
}
