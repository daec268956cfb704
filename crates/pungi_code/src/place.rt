use crate::Atom;
use pungi_api::Param;
use pungi_base::Name;

/// A slot that an instruction reads or writes, and what it holds.
#[derive(Clone, Copy)]
pub enum Place {
    Global(Name, Param),
    /// A field: the object, the tag of the struct through which it is reached, and the field's name.
    Field(Atom, Name, Name, Param),
}
