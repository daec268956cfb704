ghost use Rattle.std.specs.Prelude.{◌≡◌, ◌≤◌, ◌<◌, ◌+◌, Some, None, is_some, IfOk, IfErr, OnOk, false};
ghost use Rattle.pungi_lex.specs.MacroFault.{is_want_of_memory};
ghost use Rattle.pungi_lex.specs.Frames.{Emits, IsReplaced, IsOverLimit};
ghost use Rattle.pungi_lex.specs.Macros.{Expands, word_number};
ghost use Rattle.pungi_lex.specs.Limits.{token_limit};

use crate::macro_fault::MacroFault;
use crate::macros::{Body, put_body, take_body};
use pungi_base::{Kind, Token};
use std::alloc::{AllocError, Global};

/// How many output tokens and replacements there may be together.
pub const TOKEN_LIMIT: usize = 262144;

/// A body that is being expanded, and how far it has come.
#[derive(Drop)]
struct Frame {
    name: u32,
    body: Body,
    next: usize,
}

fn is_word(kind: Kind) -> bool
    ensures { result ≡ is_some (word_number kind) }
{
    match kind {
        Kind::Word(_) => true,
        _ => false,
    }
}

/// Writes a kind out, or opens its body.
fn emit(
    table: &mut Vec<Option<Body>>,
    out: &mut Vec<Token>,
    stack: &mut Vec<Frame>,
    token: &Token,
    kind: Kind,
) -> Result<bool, AllocError>
    ensures { IfOk result (λ opened. Emits opened token.now kind table.old.items table.new.items out.old.items
        out.new.items stack.old.items stack.new.items) }
{
    match take_body(table, kind) {
        None => {
            out.push(Token { kind, ..*token })?;
            Ok(false)
        }
        Some((name, body)) => {
            stack.push(Frame {
                name,
                body,
                next: 0,
            })?;
            Ok(true)
        }
    }
}

/// Expands a word of the text.
fn expand_word(
    alloc: Global,
    table: &mut Vec<Option<Body>>,
    out: &mut Vec<Token>,
    used: usize,
    token: &Token,
) -> Result<usize, MacroFault>
    requires { used ≤ token_limit }
    ensures replaced { IfOk result (λ count. IsReplaced table.old.items used token.now out.old.items out.new.items
        count) }
    ensures within { IfOk result (λ count. count ≤ token_limit) }
    ensures same { OnOk result (table.new.items ≡ table.old.items) }
    ensures over { IfErr result (λ fault. is_want_of_memory fault ≡ false
        → IsOverLimit table.old.items used token.now fault) }
{
    if used == TOKEN_LIMIT {
        return Err(MacroFault::TooManyTokens(token.pos));
    }
    let mut count = used + 1;
    let mut stack = Vec::new(alloc);
    let _ = emit(table, out, &mut stack, token, token.kind)?;
    'work: loop {
        match stack.pop() {
            None => return Ok(count),
            Some(frame) => {
                let Frame { name, body, next } = frame;
                if next < body.as_slice().len() {
                    if count == TOKEN_LIMIT {
                        return Err(MacroFault::TooManyTokens(token.pos));
                    }
                    count += 1;
                    let kind = body.at(next);
                    stack.push(Frame {
                        name,
                        body,
                        next: next + 1,
                    })?;
                    let _ = emit(table, out, &mut stack, token, kind)?;
                } else {
                    put_body(table, name, body);
                }
            }
        }
    }
}

/// Expands a token of the text. One that is no word stays.
pub(crate) fn expand_token(
    alloc: Global,
    table: &mut Vec<Option<Body>>,
    out: &mut Vec<Token>,
    used: usize,
    token: &Token,
) -> Result<usize, MacroFault>
    requires { used ≤ token_limit }
    ensures replaced { IfOk result (λ count. IsReplaced table.old.items used token.now out.old.items out.new.items
        count) }
    ensures within { IfOk result (λ count. count ≤ token_limit) }
    ensures same { OnOk result (table.new.items ≡ table.old.items) }
    ensures over { IfErr result (λ fault. is_want_of_memory fault ≡ false
        → IsOverLimit table.old.items used token.now fault) }
{
    if used < TOKEN_LIMIT && !is_word(token.kind) {
        out.push(*token)?;
        return Ok(used + 1);
    }
    match expand_word(alloc, table, out, used, token) {
        Ok(count) => Ok(count),
        Err(found) => Err(found),
    }
}
