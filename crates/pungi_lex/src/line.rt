ghost use Rattle.std.specs.Prelude.{◌≡◌, codes};
ghost use Rattle.std.specs.List.{list_any};
ghost use Rattle.std.specs.Str.{bytes_eq};
ghost use Rattle.pungi_lex.specs.Bytes.{is_one_of};
ghost use Rattle.pungi_lex.specs.Line.{after_token, next_line, is_fresh};

use crate::start::{Start, is_token};

/// How far a line has come.
#[derive(Clone, Copy)]
pub enum Line {
    /// No token stands on it yet.
    Fresh,
    /// A lone `#`.
    Hash,
    /// `#` and `include`: what is left of the line is a header.
    Include,
    /// Anything else.
    Within,
}

fn is_hash(piece: &[u8]) -> bool
    ensures { result ≡ bytes_eq piece.now (codes "#") }
{
    piece == b"#".as_slice()
}

fn is_include(piece: &[u8]) -> bool
    ensures { result ≡ bytes_eq piece.now (codes "include") }
{
    piece == b"include".as_slice()
}

fn has_line_end(piece: &[u8]) -> bool
    ensures { result ≡ list_any (is_one_of (codes "\n")) piece.now }
{
    piece.iter().any(|b| *b == b'\n')
}

fn behind_token(line: Line, piece: &[u8]) -> Line
    ensures { result ≡ after_token line piece.now }
{
    match line {
        Line::Fresh => if is_hash(piece) {
            Line::Hash
        } else {
            Line::Within
        },
        Line::Hash => if is_include(piece) {
            Line::Include
        } else {
            Line::Within
        },
        Line::Include => Line::Within,
        Line::Within => Line::Within,
    }
}

/// The line after a token, or after blanks or a comment.
pub(crate) fn next_line(line: Line, start: Start, piece: &[u8]) -> Line
    ensures { result ≡ next_line line start piece.now }
{
    if is_token(start) {
        return behind_token(line, piece);
    }
    if has_line_end(piece) {
        Line::Fresh
    } else {
        line
    }
}

/// Whether no token stands on the line.
pub(crate) fn is_fresh(line: Line) -> bool
    ensures { result ≡ is_fresh line }
{
    match line {
        Line::Fresh => true,
        _ => false,
    }
}
