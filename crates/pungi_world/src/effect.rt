use pungi_base::Value;

/// What an API call, a load or a store returns.
#[derive(Clone, Copy)]
pub struct Effect {
    /// The value, where there is one.
    pub value: Option<Value>,
    /// How many choices were used.
    pub used: usize,
}
