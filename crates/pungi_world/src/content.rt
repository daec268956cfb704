use pungi_base::Value;

/// What a variable or a slot holds: nothing that may be read, or a value.
#[derive(Clone, Copy, PartialEq, Eq)]
pub enum Content {
    Unset,
    Holds(Value),
}
