use crate::{Kind, Pos};

/// A token and where it begins in the text as it stands.
#[derive(Clone, Copy, PartialEq, Eq)]
pub struct Token {
    pub kind: Kind,
    pub pos: Pos,
    /// Whether it is the first token on its line. A line ends in a line feed that no line join takes out.
    pub first: bool,
    /// Whether nothing stands between it and the token before.
    pub touching: bool,
}
