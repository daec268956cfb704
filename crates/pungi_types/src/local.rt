use crate::ValueKind;
use pungi_base::Name;

/// A local or a parameter, as it is known from its declaration on. Its number counts from 0 in the order of the
/// declarations in a function, with the parameters first. It has no kind where its declaration is refused.
#[derive(Clone, Copy, Debug, PartialEq, Eq)]
pub struct Local {
    pub name: Name,
    pub number: usize,
    pub kind: Option<ValueKind>,
}
