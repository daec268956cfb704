use crate::states::term::Term;
use pungi_base::Name;

/// A slot, with the token of its base.
#[derive(Clone, Copy)]
pub enum Spot {
    Global(Name),
    /// A field: the token of the object, the tag of the struct through which it is reached, and the field's name.
    Field(usize, Name, Name),
}

/// A slot that was touched: what it held at entry, and what it holds. One of an object that was made held nothing.
#[derive(Clone, Copy)]
pub struct Touched {
    pub spot: Spot,
    pub at_entry: Term,
    pub held: Term,
}

/// How far the search for the slot of an instruction came. The places after those of the touched slots are those of the
/// objects that were made.
#[derive(Clone, Copy)]
pub enum Progress {
    /// The touched slots before this place are other slots, and the objects other objects.
    Looking(usize),
    /// The slot is the touched one at this place, or it is of the object at this place.
    Found(usize),
}
