use crate::{Seq, Value};

/// What a run starts from: how many objects there are, and the arguments in order.
#[derive(Drop)]
pub struct Entry {
    pub objects: u32,
    pub args: Seq<Value>,
}
