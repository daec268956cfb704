use crate::failing::Failing;
use pungi_base::Seq;

/// What annotating a function gave.
#[derive(Drop)]
pub(crate) struct Step<D> {
    pub(crate) failing: Failing,
    /// The values of its exit classes, with those of the annotation taken in.
    pub(crate) exits: Seq<Option<D>>,
    /// Whether that changed anything.
    pub(crate) grew: bool,
}
