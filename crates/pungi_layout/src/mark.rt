use pungi_code::Head;

/// What may be a head of a code: a place of the code, and the place of a loop or a label in the text.
#[derive(Clone, Copy)]
pub enum Mark {
    OfLoop(Head),
    OfLabel(Head),
}
