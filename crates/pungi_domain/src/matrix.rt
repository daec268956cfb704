use pungi_base::Seq;

/// A linear map of vectors, with one row a coordinate of the image.
///
/// A row lists source coordinates with their factors, each coordinate once. All other factors are 0.
#[derive(Drop)]
pub struct Matrix {
    pub rows: Seq<Seq<(u32, i64)>>,
}
