use pungi_base::Seq;
use pungi_types::ValueKind;

/// A function of the file that is called.
#[derive(Drop)]
pub struct CalledFunction {
    /// Its number, in the order of the definitions.
    pub number: usize,
    /// The kinds of its parameters.
    pub params: Seq<Option<ValueKind>>,
    /// The kind of its result.
    pub result: Option<ValueKind>,
}
