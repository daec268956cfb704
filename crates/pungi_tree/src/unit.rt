use crate::Item;

/// A file (C11 6.9):
///
/// ```text
/// unit = item*
/// ```
pub struct Unit {
    pub items: Vec<Item>,
}

impl Drop for Unit {
    fn drop(self) {
        let Unit { items: _ } = self;
    }
}
