ghost use Rattle.std.specs.Prelude.{Some};
ghost use Rattle.pungi_base.specs.Witness.{place_text};

use std::fmt;

/// A place in a text: its line, and its byte in that line, both from 1.
#[derive(Clone, Copy, Debug, PartialEq, Eq, PartialOrd, Ord, Hash)]
pub struct Pos {
    pub line: u32,
    pub col: u32,
}

impl fmt::Display for Pos {
    ghost output = { λ at. Some (place_text at) };

    fn fmt<W: fmt::Write>(&self, f: &mut fmt::Formatter<W>) -> fmt::Result {
        write!(f, "{}:{}", self.line, self.col)
    }
}
