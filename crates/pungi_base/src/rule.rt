/// The number of a rule of the subset, by which a function is refused.
#[derive(Clone, Copy, Debug, PartialEq, Eq)]
pub struct Rule(pub u8);
