use crate::questions::question::Question;

/// Where the slot of an instruction is.
#[derive(Clone, Copy)]
pub enum Finding {
    /// It takes a question to know, or the run stops.
    Waits(Question),
    /// The touched slot at this place.
    At(usize),
    /// No slot that was touched, but one of an object that was made: it held nothing.
    OfMade,
    /// No slot that was touched.
    Nowhere,
}
