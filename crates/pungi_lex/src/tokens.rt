ghost use Rattle.std.specs.Prelude.{◌≡◌, ◌≤◌, ◌<◌, ◌+◌, ◌^◌, ◌++◌, ℕ, List, length, false, IfOk, OnOk, IfErr};
ghost use Rattle.std.specs.List.{All};
ghost use Rattle.pungi_base.specs.declared.token.Token.{Token as TheToken};
ghost use Rattle.pungi_base.specs.Names.{AreNames, Extends};
ghost use Rattle.pungi_base.specs.Words.{BeginWithWords};
ghost use Rattle.pungi_lex.specs.declared.lex_fault.LexFault.{LexFault as TheLexFault};
ghost use Rattle.pungi_lex.specs.Join.{place_in};
ghost use Rattle.pungi_lex.specs.Known.{AreKnown};
ghost use Rattle.pungi_lex.specs.Size.{AreSized};
ghost use Rattle.pungi_lex.specs.Stretch.{places_along, IsNarrow};
ghost use Rattle.pungi_lex.specs.Tokens.{AreTokens, AreTokensOf, IsRefused, HasFault, HasNoTokens, is_memory, token_of};
ghost use Rattle.pungi_lex.specs.Tokens.{fault_at};
ghost use Rattle.pungi_lex.specs.Limits.{text_limit};
ghost use Rattle.pungi_base.specs.Numbers.{keyword_count};

use crate::join::{join, stretches_of};
use crate::lex_fault::LexFault;
use crate::line::{Line, is_fresh, next_line};
use crate::piece::piece_of;
use crate::recent::Recent;
use crate::start::{Start, is_token, start_of};
use crate::stretch::{Stretch, first_spot, spot_behind};
use pungi_base::{Kind, Names, Pos, Token};
use std::alloc::{AllocError, Global};

/// The greatest length of a text, in bytes.
pub const TEXT_LIMIT: usize = 1048576;

/// About how many bytes of a text make a token. The list of tokens is made with room for as many.
const BYTES_A_TOKEN: usize = 4;

fn fault_at(start: Start, at: Pos) -> LexFault
    ensures { result ≡ fault_at start at }
{
    match start {
        Start::Comment => LexFault::OpenComment(at),
        Start::Text => LexFault::OpenText(at),
        Start::Number => LexFault::Number(at),
        Start::Char => LexFault::Number(at),
        Start::Header => LexFault::Byte(at),
        Start::Blank => LexFault::Byte(at),
        Start::LineComment => LexFault::Byte(at),
        Start::Word => LexFault::Byte(at),
        Start::Mark => LexFault::Byte(at),
        Start::Nothing => LexFault::Byte(at),
    }
}

fn push_token(
    tokens: &mut Vec<Token>,
    found: Option<Kind>,
    pos: Pos,
    first: bool,
    touching: bool,
) -> Result<(), AllocError>
    ensures tokens { OnOk result (tokens.new.items ≡ tokens.old.items ++ token_of found pos first touching) }
    ensures one { length tokens.new.items ≤ length tokens.old.items + 1 }
{
    match found {
        None => Ok(()),
        Some(kind) => {
            tokens.push(Token {
                kind,
                pos,
                first,
                touching,
            })?;
            Ok(())
        }
    }
}

/// Cuts bytes with their places into tokens.
fn cut(
    alloc: Global,
    names: &mut Names,
    bytes: &[u8],
    stretches: &[Stretch],
) -> Result<Vec<Token>, LexFault>
    requires short { length bytes.now ≤ text_limit }
    requires same { length (places_along stretches.now) ≡ length bytes.now }
    requires narrow { All IsNarrow stretches.now }
    requires words { keyword_count ≤ length names.old }
    requires room { length names.old < 2 ^ 31 }
    ensures tokens { IfOk result (λ tokens. AreTokens names.old names.new bytes.now
        (place_in (places_along stretches.now)) tokens.items) }
    ensures few { IfOk result (λ tokens. length tokens.items ≤ length bytes.now) }
    ensures refused { IfErr result (λ fault. IsRefused bytes.now (place_in (places_along stretches.now)) fault) }
    ensures grows { Extends names.old names.new }
    ensures names { AreNames names.old → AreNames names.new }
    ensures room { length names.new ≤ length names.old + length bytes.now }
{
    let mut tokens = Vec::with_capacity(alloc, bytes.len() / BYTES_A_TOKEN)?;
    let mut recent = Recent::new(alloc)?;
    let mut line = Line::Fresh;
    let mut touching = false;
    let mut done = 0usize;
    let mut spot = first_spot(stretches);
    'pieces: loop {
        let (_, rest) = bytes.split_at(done);
        if rest.is_empty() {
            return Ok(tokens);
        }
        let start = start_of(line, rest);
        match piece_of(alloc, names, &mut recent, start, rest)? {
            None => return Err(fault_at(start, spot.at)),
            Some((found, count)) => {
                let (piece, _) = rest.split_at(count);
                push_token(&mut tokens, found, spot.at, is_fresh(line), touching)?;
                line = next_line(line, start, piece);
                touching = is_token(start);
                spot = spot_behind(stretches, spot, count as u32);
                done += count;
            }
        }
    }
}

/// Names are distinct, whatever they are.
fn are_distinct(names: &Names)
    ensures { AreNames names.now }
{
    let _ = names.find(b"");
}

/// The tokens of a text, or what it is refused for.
fn cut_text(alloc: Global, names: &mut Names, text: &[u8]) -> Result<Vec<Token>, LexFault>
    requires short { length text.now ≤ text_limit }
    requires words { keyword_count ≤ length names.old }
    requires room { length names.old < 2 ^ 31 }
    ensures tokens { IfOk result (λ tokens. AreTokensOf names.old names.new text.now tokens.items) }
    ensures few { IfOk result (λ tokens. length tokens.items ≤ length text.now) }
    ensures fault { IfErr result (λ fault. is_memory fault ≡ false → HasFault text.now fault) }
    ensures grows { Extends names.old names.new }
    ensures names { AreNames names.new }
    ensures room { length names.new ≤ length names.old + length text.now }
{
    are_distinct(names);
    let standing = stretches_of(alloc, text)?;
    if standing.count == text.len() {
        return cut(alloc, names, text, &standing.stretches);
    }
    let bytes = join(alloc, text)?;
    cut(alloc, names, &bytes, &standing.stretches)
}

/// Cuts a text into its tokens. The names gain its words and the contents of its string literals, in the order in
/// which they first come; after a refusal, those that were met before it.
pub fn lex(alloc: Global, names: &mut Names, text: &[u8]) -> Result<Vec<Token>, LexFault>
    requires short { length text.now ≤ text_limit }
    requires words { BeginWithWords names.old }
    requires room { length names.old < 2 ^ 31 }
    ensures tokens { IfOk result (λ tokens. AreTokensOf names.old names.new text.now tokens.items) }
    ensures only { (after : List (List ℕ)) → (tokens : List TheToken) → AreTokensOf names.old after text.now tokens
        → IfOk result (λ found. (after ≡ names.new) × (tokens ≡ found.items)) }
    ensures few { IfOk result (λ tokens. length tokens.items ≤ length text.now) }
    ensures known { IfOk result (λ tokens. AreKnown names.new tokens.items) }
    ensures sized { IfOk result (λ tokens. AreSized tokens.items) }
    ensures fault { IfErr result (λ fault. is_memory fault ≡ false → HasFault text.now fault) }
    ensures first { (other : TheLexFault) → HasFault text.now other
        → IfErr result (λ fault. is_memory fault ≡ false → other ≡ fault) }
    ensures none { IfErr result (λ fault. is_memory fault ≡ false → HasNoTokens names.old text.now) }
    ensures grows { Extends names.old names.new }
    ensures names { AreNames names.new }
    ensures room { length names.new ≤ length names.old + length text.now }
{
    cut_text(alloc, names, text)
}
