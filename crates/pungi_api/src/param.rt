/// What a parameter of an API call takes.
#[derive(Clone, Copy, Debug, PartialEq, Eq)]
pub enum Param {
    /// A pointer to an object, not `NULL`.
    Object,
    /// A pointer to an object, or `NULL`.
    ObjectOrNull,
    /// An `int`.
    Int,
    /// A `long`.
    Long,
    /// A `Py_ssize_t`.
    Size,
    /// A text, not `NULL`.
    Text,
    /// A text, or `NULL`.
    TextOrNull,
    /// The address of a table of type `PyModuleDef`.
    ModuleDef,
}
