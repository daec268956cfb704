use pungi_base::Seq;

/// A linear equation on vectors: the coefficients times the coordinates sum up to 0.
///
/// It has one coefficient a coordinate. Coordinate 0 stands for the constant. The coefficients of the others lie within
/// 2^20.
#[derive(Drop)]
pub struct Equation {
    pub coefficients: Seq<i64>,
}
