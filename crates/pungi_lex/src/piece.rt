ghost use Rattle.std.specs.Prelude.{◌≡◌, ◌≤◌, ◌<◌, ◌+◌, ◌-◌, ◌^◌, ℕ, List, length, take, IfOk, OnOk, OnErr, IfSome};
ghost use Rattle.std.specs.Prelude.{IsTrue, None, Some, MatchOption};
ghost use Rattle.pungi_base.specs.Names.{with_text, AreNames, Extends};
ghost use Rattle.pungi_lex.specs.declared.start.Start.TheVariants as start;
ghost use Rattle.pungi_lex.specs.Bytes.{begins, is_blank, is_in_line, is_letter};
ghost use Rattle.pungi_lex.specs.Start.{Begins};
ghost use Rattle.pungi_lex.specs.Piece.{length_at, spells, with_texts, NamesWord, NamesText, IsPieceAt};
ghost use Rattle.pungi_base.specs.Numbers.{keyword_count};

use crate::bytes::{blank_count, line_count, word_count};
use crate::character::char_behind;
use crate::comment::close_count;
use crate::key::key_at;
use crate::mark::{longest_mark, punct_length};
use crate::number::{number_count, number_kind};
use crate::quote::quote_count;
use crate::recent::Recent;
use crate::start::Start;
use pungi_base::words::KEYWORDS;
use pungi_base::{Kind, Memory, Names};
use std::alloc::Global;

/// What a word is under these names, which gain it.
fn word_kind(
    alloc: Global,
    names: &mut Names,
    recent: &mut Recent,
    word: &[u8],
) -> Result<Kind, Memory>
    requires words { keyword_count ≤ length names.old }
    requires room { length names.old < 2 ^ 32 - 1 }
    ensures ok { OnOk result (names.new ≡ with_text names.old word.now) }
    ensures kind { IfOk result (λ kind. NamesWord names.new (Some kind) word.now) }
    ensures names { AreNames names.old → AreNames names.new }
    ensures err { OnErr result (names.new ≡ names.old) }
{
    let name = recent.number(alloc, names, word)?;
    if name.0 < KEYWORDS {
        Ok(Kind::Key(key_at(name.0)))
    } else {
        Ok(Kind::Word(name))
    }
}

/// What a text constant's content is under these names, which gain it.
fn text_kind(alloc: Global, names: &mut Names, text: &[u8]) -> Result<Kind, Memory>
    requires room { length names.old < 2 ^ 32 - 1 }
    ensures ok { OnOk result (names.new ≡ with_text names.old text.now) }
    ensures kind { IfOk result (λ kind. NamesText names.new (Some kind) text.now) }
    ensures names { OnOk result (AreNames names.new) }
    ensures err { OnErr result (names.new ≡ names.old) }
{
    let name = names.number(alloc, text)?;
    Ok(Kind::Text(name))
}

fn header_piece(text: &[u8]) -> (Option<Kind>, usize)
    requires { IsTrue (begins is_in_line text.now) }
    ensures { (names : List (List ℕ)) → IsPieceAt names start.Header text.now result.0 result.1 }
{
    (Some(Kind::Header), line_count(text))
}

fn blank_piece(text: &[u8]) -> (Option<Kind>, usize)
    requires { IsTrue (begins is_blank text.now) }
    ensures { (names : List (List ℕ)) → IsPieceAt names start.Blank text.now result.0 result.1 }
{
    (None, blank_count(text))
}

fn line_comment_piece(text: &[u8]) -> (Option<Kind>, usize)
    requires { IsTrue (begins is_in_line text.now) }
    ensures { (names : List (List ℕ)) → IsPieceAt names start.LineComment text.now result.0 result.1 }
{
    (None, line_count(text))
}

fn comment_piece(text: &[u8]) -> Option<(Option<Kind>, usize)>
    requires { 2 ≤ length text.now }
    ensures { (names : List (List ℕ)) → MatchOption result (length_at start.Comment text.now ≡ None)
        (λ piece. IsPieceAt names start.Comment text.now piece.0 piece.1) }
{
    let (_, behind) = text.split_at(2);
    match close_count(behind) {
        None => None,
        Some(count) => Some((None, count + 2)),
    }
}

fn number_piece(text: &[u8]) -> Option<(Option<Kind>, usize)>
    requires { 0 < length text.now }
    ensures { (names : List (List ℕ)) → MatchOption result (length_at start.Number text.now ≡ None)
        (λ piece. IsPieceAt names start.Number text.now piece.0 piece.1) }
{
    let count = number_count(text);
    let (spelling, _) = text.split_at(count);
    match number_kind(spelling) {
        None => None,
        Some(kind) => Some((Some(kind), count)),
    }
}

fn char_piece(text: &[u8]) -> Option<(Option<Kind>, usize)>
    requires { 0 < length text.now }
    ensures { (names : List (List ℕ)) → MatchOption result (length_at start.Char text.now ≡ None)
        (λ piece. IsPieceAt names start.Char text.now piece.0 piece.1) }
{
    let (_, behind) = text.split_at(1);
    match char_behind(behind) {
        None => None,
        Some((value, count)) => Some((Some(Kind::Char(value)), count)),
    }
}

fn mark_piece(text: &[u8]) -> Option<(Option<Kind>, usize)>
    requires { 0 < length text.now }
    ensures { (names : List (List ℕ)) → MatchOption result (length_at start.Mark text.now ≡ None)
        (λ piece. IsPieceAt names start.Mark text.now piece.0 piece.1) }
{
    match longest_mark(text) {
        None => None,
        Some(punct) => Some((Some(Kind::Punct(punct)), punct_length(punct))),
    }
}

fn word_piece(
    alloc: Global,
    names: &mut Names,
    recent: &mut Recent,
    text: &[u8],
) -> Result<(Option<Kind>, usize), Memory>
    requires first { IsTrue (begins is_letter text.now) }
    requires words { keyword_count ≤ length names.old }
    requires room { length names.old < 2 ^ 32 - 1 }
    ensures grows { Extends names.old names.new }
    ensures room { length names.new ≤ length names.old + 1 }
    ensures piece { IfOk result (λ piece. IsPieceAt names.new start.Word text.now piece.0 piece.1) }
    ensures added { IfOk result (λ piece. names.new ≡ with_texts names.old
        (spells start.Word (take piece.1 text.now))) }
    ensures names { AreNames names.old → AreNames names.new }
{
    let count = word_count(text);
    let (word, _) = text.split_at(count);
    let kind = word_kind(alloc, names, recent, word)?;
    Ok((Some(kind), count))
}

fn text_piece(
    alloc: Global,
    names: &mut Names,
    text: &[u8],
) -> Result<Option<(Option<Kind>, usize)>, Memory>
    requires first { 0 < length text.now }
    requires room { length names.old < 2 ^ 32 - 1 }
    ensures grows { Extends names.old names.new }
    ensures room { length names.new ≤ length names.old + 1 }
    ensures piece { IfOk result (λ found. MatchOption found (length_at start.Text text.now ≡ None)
        (λ piece. IsPieceAt names.new start.Text text.now piece.0 piece.1)) }
    ensures added { IfOk result (λ found. IfSome found (λ piece. names.new
        ≡ with_texts names.old (spells start.Text (take piece.1 text.now)))) }
    ensures names { AreNames names.old → AreNames names.new }
{
    let (_, behind) = text.split_at(1);
    match quote_count(behind) {
        None => Ok(None),
        Some(count) => {
            let (inner, _) = behind.split_at(count - 1);
            let kind = text_kind(alloc, names, inner)?;
            Ok(Some((Some(kind), count + 1)))
        }
    }
}

/// The piece at the front of a text where this begins, and its length.
pub(crate) fn piece_of(
    alloc: Global,
    names: &mut Names,
    recent: &mut Recent,
    start: Start,
    text: &[u8],
) -> Result<Option<(Option<Kind>, usize)>, Memory>
    requires begins { Begins start text.now }
    requires words { keyword_count ≤ length names.old }
    requires room { length names.old < 2 ^ 32 - 1 }
    ensures grows { Extends names.old names.new }
    ensures room { length names.new ≤ length names.old + 1 }
    ensures piece { IfOk result (λ found. MatchOption found (length_at start text.now ≡ None)
        (λ piece. IsPieceAt names.new start text.now piece.0 piece.1)) }
    ensures added { IfOk result (λ found. IfSome found (λ piece. names.new
        ≡ with_texts names.old (spells start (take piece.1 text.now)))) }
    ensures names { AreNames names.old → AreNames names.new }
{
    match start {
        Start::Header => Ok(Some(header_piece(text))),
        Start::Blank => Ok(Some(blank_piece(text))),
        Start::LineComment => Ok(Some(line_comment_piece(text))),
        Start::Comment => Ok(comment_piece(text)),
        Start::Word => Ok(Some(word_piece(alloc, names, recent, text)?)),
        Start::Number => Ok(number_piece(text)),
        Start::Char => Ok(char_piece(text)),
        Start::Text => Ok(text_piece(alloc, names, text)?),
        Start::Mark => Ok(mark_piece(text)),
        Start::Nothing => Ok(None),
    }
}
