use pungi_base::Name;

/// The kind of a value. An object may have the struct that its pointer's type names.
#[derive(Clone, Copy, Debug, PartialEq, Eq)]
pub enum ValueKind {
    Int,
    Long,
    Size,
    Text,
    Object(Option<Name>),
    /// The constant `NULL`, a pointer of any kind.
    Null,
    Void,
}
