/// Numbers for the tokens of a state, and for the results of the computations that are no sums.
#[derive(Drop)]
pub struct Model {
    pub tokens: Vec<i64>,
    pub computed: Vec<i128>,
}
