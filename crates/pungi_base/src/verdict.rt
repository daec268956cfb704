use crate::{Fault, Pos, Rule, Why};

/// What is said of a function.
#[derive(Drop)]
pub enum Verdict {
    /// No run that returns loses or doubles a reference.
    Clean,
    /// The run of the fault does.
    Faulty(Fault),
    /// Neither was shown.
    Unknown(Why),
    /// It isn't judged: this rule holds at this place.
    Refused(Pos, Rule),
}
