ghost use Rattle.std.specs.Prelude.{◌≡◌};
ghost use Rattle.pungi_lex.specs.Start.{start_of, Begins, is_token, is_after_include};

use crate::bytes::{is_blank, is_digit, is_letter, is_mark, is_plain_mark};
use crate::line::Line;

/// What may begin at a place.
#[derive(Clone, Copy)]
pub enum Start {
    Header,
    Blank,
    LineComment,
    Comment,
    Word,
    Number,
    Char,
    Text,
    Mark,
    Nothing,
}

/// Whether what begins so is a token: no blanks, and no comment.
pub(crate) fn is_token(start: Start) -> bool
    ensures { result ≡ is_token start }
{
    match start {
        Start::Blank => false,
        Start::LineComment => false,
        Start::Comment => false,
        _ => true,
    }
}

fn is_after_include(line: Line) -> bool
    ensures { result ≡ is_after_include line }
{
    match line {
        Line::Include => true,
        _ => false,
    }
}

/// What begins at the front of a text, as far as the line has come.
#[tactic(auto, using(crate::proofs::StartLemmas::plain_starts))]
pub(crate) fn start_of(line: Line, text: &[u8]) -> Start
    ensures start { result ≡ start_of line text.now }
    ensures begins { Begins result text.now }
{
    if text.is_empty() {
        return Start::Nothing;
    }
    let b = text[0];
    if is_after_include(line) && b != b'\n' {
        return Start::Header;
    }
    if is_blank(b) {
        return Start::Blank;
    }
    if is_plain_mark(b) {
        return Start::Mark;
    }
    if b == b'/' && text.len() > 1 && text[1] == b'/' {
        return Start::LineComment;
    }
    if b == b'/' && text.len() > 1 && text[1] == b'*' {
        return Start::Comment;
    }
    if is_letter(b) {
        return Start::Word;
    }
    if is_digit(b) || (b == b'.' && text.len() > 1 && is_digit(text[1])) {
        return Start::Number;
    }
    if b == b'\'' {
        return Start::Char;
    }
    if b == b'"' {
        return Start::Text;
    }
    if is_mark(b) {
        return Start::Mark;
    }
    Start::Nothing
}
