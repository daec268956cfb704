ghost use Rattle.std.specs.Prelude.{◌≡◌, ◌≤◌, ◌<◌, ◌+◌, ◌-◌, ◌^◌, ◌∷◌, ◌++◌, length, take, drop, IfOk};
ghost use Rattle.std.specs.List.{prefix_len, All};
ghost use Rattle.pungi_lex.specs.Join.{join_length, after_byte, bytes_of, places_of, joined, joined_from, plain};
ghost use Rattle.pungi_lex.specs.Stretch.{is_unbroken, side_by_side, places_along, IsNarrow};
ghost use Rattle.pungi_lex.specs.Limits.{text_limit};

use crate::stretch::{Stretch, right_of};
use memchr::memchr2;
use pungi_base::Pos;
use std::alloc::{AllocError, Global};

/// Where the bytes that a text keeps without its line joins stand, and how many they are.
#[derive(Drop)]
pub(crate) struct Standing {
    pub stretches: Vec<Stretch>,
    pub count: usize,
}

/// What stands first in a text: so many bytes that stay, side by side, so many bytes with the join after them, if one
/// is there, and the place after it all.
#[derive(Clone, Copy)]
struct Front {
    kept: usize,
    passed: usize,
    next: Pos,
}

const BACKSLASH: u8 = b'\\';

/// About how many bytes of a text stand on a line. The list of stretches is made with room for as many.
const BYTES_A_STRETCH: usize = 16;

/// How long the line join at the front of a text is.
fn join_length(text: &[u8]) -> usize
    ensures { result ≡ join_length text.now }
{
    match text {
        [] => 0,
        [b, rest @ ..] => {
            if *b == BACKSLASH {
                join_end_length(rest)
            } else {
                0
            }
        }
    }
}

/// How long a line join is whose backslash has this after it.
fn join_end_length(rest: &[u8]) -> usize
    ensures { result ≡ join_length (BACKSLASH ∷ rest.now) }
{
    match rest {
        [] => 0,
        [a] => { if *a == b'\n' { 2 } else { 0 } }
        [a, b, ..] => {
            if *a == b'\n' {
                2
            } else if *a == b'\r' && *b == b'\n' {
                3
            } else {
                0
            }
        }
    }
}

fn after_byte(at: Pos, b: u8) -> Pos
    requires line { at.line + 1 < 2 ^ 32 }
    requires col { at.col + 1 < 2 ^ 32 }
    ensures place { result ≡ after_byte at b }
    ensures line { result.line ≤ at.line + 1 }
    ensures col { result.col ≤ at.col + 1 }
{
    if b == b'\n' {
        Pos {
            line: at.line + 1,
            col: 1,
        }
    } else {
        Pos {
            line: at.line,
            col: at.col + 1,
        }
    }
}

/// How many bytes come before the next line feed or backslash.
fn unbroken_count(text: &[u8]) -> usize
    ensures count { result ≡ prefix_len is_unbroken text.now }
    ensures within { result ≤ length text.now }
{
    match memchr2(b'\n', BACKSLASH, text) {
        None => text.len(),
        Some(index) => index,
    }
}

/// What stands first in a text that begins at a place.
fn front_of(at: Pos, text: &[u8]) -> Front
    requires short { length text.now ≤ text_limit }
    requires line { at.line + 1 < 2 ^ 32 }
    requires col { at.col + text_limit < 2 ^ 32 - 1 }
    ensures bytes { bytes_of (joined_from 0 at text.now)
        ≡ take result.kept text.now ++ bytes_of (joined_from 0 result.next (drop result.passed text.now)) }
    ensures places { places_of (joined_from 0 at text.now)
        ≡ side_by_side at result.kept ++ places_of (joined_from 0 result.next (drop result.passed text.now)) }
    ensures some { 0 < length text.now → 0 < result.passed }
    ensures kept { result.kept ≤ result.passed }
    ensures within { result.passed ≤ length text.now }
    ensures line { result.next.line ≤ at.line + 1 }
    ensures col { result.next.col ≤ at.col + result.passed }
{
    let count = unbroken_count(text);
    let (_, behind) = text.split_at(count);
    let next = right_of(at, count as u32);
    match behind {
        [] => Front {
            kept: count,
            passed: count,
            next,
        },
        [b, ..] => {
            let length = join_length(behind);
            if length == 0 {
                Front {
                    kept: count + 1,
                    passed: count + 1,
                    next: after_byte(next, *b),
                }
            } else {
                Front {
                    kept: count,
                    passed: count + length,
                    next: Pos {
                        line: at.line + 1,
                        col: 1,
                    },
                }
            }
        }
    }
}

/// Where the bytes of a text without its line joins stand.
pub(crate) fn stretches_of(alloc: Global, text: &[u8]) -> Result<Standing, AllocError>
    requires short { length text.now ≤ text_limit }
    ensures places { IfOk result (λ s. places_along s.stretches.items ≡ places_of (joined text.now)) }
    ensures narrow { IfOk result (λ s. All IsNarrow s.stretches.items) }
    ensures count { IfOk result (λ s. s.count ≡ length (plain text.now)) }
{
    let mut stretches = Vec::with_capacity(alloc, text.len() / BYTES_A_STRETCH)?;
    let mut count = 0usize;
    let mut at = Pos { line: 1, col: 1 };
    let mut done = 0usize;
    'fronts: while done < text.len() {
        let (_, rest) = text.split_at(done);
        let front = front_of(at, rest);
        stretches.push(Stretch {
            at,
            count: front.kept as u32,
        })?;
        count += front.kept;
        at = front.next;
        done += front.passed;
    }
    Ok(Standing { stretches, count })
}

/// A text without its line joins.
pub(crate) fn join(alloc: Global, text: &[u8]) -> Result<Vec<u8>, AllocError>
    requires short { length text.now ≤ text_limit }
    ensures bytes { IfOk result (λ bytes. bytes.items ≡ plain text.now) }
    ensures short { IfOk result (λ bytes. length bytes.items ≤ length text.now) }
{
    let mut bytes = Vec::with_capacity(alloc, text.len())?;
    let mut at = Pos { line: 1, col: 1 };
    let mut done = 0usize;
    'fronts: while done < text.len() {
        let (_, rest) = text.split_at(done);
        let front = front_of(at, rest);
        let (kept, _) = rest.split_at(front.kept);
        bytes.extend_from_slice(kept)?;
        at = front.next;
        done += front.passed;
    }
    Ok(bytes)
}
