use crate::Holding;
use pungi_base::Name;

/// A slot as a shape names it.
#[derive(Clone, Copy)]
pub enum Spot {
    Global(Name),
    /// A field, by the token of its object and the tag of the struct through which it is reached.
    Field { base: u32, tag: Name, field: Name },
}

/// A slot whose object is tracked, and what it holds.
#[derive(Clone, Copy)]
pub struct Tracked {
    pub spot: Spot,
    pub held: Holding,
}
