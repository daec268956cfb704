use crate::{Key, Name, Punct};

/// What a token is (C11 6.4).
#[derive(Clone, Copy, PartialEq, Eq)]
pub enum Kind {
    /// A keyword.
    Key(Key),
    /// A word that is no keyword (C11 6.4.2).
    Word(Name),
    /// An integer constant (C11 6.4.4.1). `long` is set by a suffix or by a value over 2,147,483,647. `unsigned` is
    /// set by a suffix, and by an octal or hexadecimal spelling from 2,147,483,648 to 4,294,967,295 without one of
    /// `long`.
    Int {
        value: i128,
        long: bool,
        unsigned: bool,
    },
    /// A floating constant (C11 6.4.4.2), whose value nothing reads.
    Float,
    /// A character constant of one byte (C11 6.4.4.4).
    Char(u8),
    /// A string literal (C11 6.4.5), by what stands between its quotes, escapes as written.
    Text(Name),
    /// A punctuator.
    Punct(Punct),
    /// The name of a header in an `#include` (C11 6.4.7): the rest of its line.
    Header,
}
