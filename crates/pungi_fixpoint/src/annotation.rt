use pungi_base::Seq;

/// A value for each place and each exit class of an affine program.
#[derive(Drop)]
pub struct Annotation<D> {
    pub at: Seq<D>,
    pub exits: Seq<D>,
}
