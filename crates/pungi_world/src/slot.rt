use crate::Content;
use pungi_base::Name;

/// A place that outlives a run and may hold a reference: a global, or a field of an object by the tag of the struct
/// through which it is reached.
#[derive(Clone, Copy, PartialEq, Eq)]
pub enum Slot {
    Global(Name),
    Field { object: u32, tag: Name, field: Name },
}

/// A slot that a run touched: what it held at entry, and what it holds now.
#[derive(Clone, Copy)]
pub struct SlotState {
    pub slot: Slot,
    pub at_entry: Content,
    pub held: Content,
}
