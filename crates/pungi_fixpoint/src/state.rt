use pungi_base::Seq;

/// What is known of a function's annotations.
#[derive(Debug, Drop)]
pub enum State {
    /// A safe annotation was found.
    Safe,
    /// None was found. Holds a place from which an edge with a duty that fails leads, or a call.
    NotSafe(u32),
    /// Its program, or that of a function that it reaches by calls, is too large.
    Shapes,
    /// A step from this place was large, or one of a function that a call from it reaches. Holds a scaled row of the
    /// large span, divided by the common divisor of its entries.
    Range(u32, Seq<i128>),
}
