ghost use Rattle.std.specs.Prelude.{◌≡◌, ◌<◌, ◌∷◌, ◌++◌, [], reverse, is_some, IfOk, OnErr, length};
ghost use Rattle.pungi_format.specs.OutFormat.{Builds, Closes, closing_of, is_blank, is_closing, out_letter};

use crate::{FormatFault, OutUnit};
use smallvec::SmallVec;
use std::alloc::Global;

/// An open bracket.
#[derive(Clone, Copy, Debug, Default)]
struct Group {
    place: usize,
    /// The byte that closes it.
    closing: u8,
}

/// Reads a format of `Py_BuildValue`. The first fault from the left wins.
pub fn build_units(alloc: Global, text: &[u8]) -> Result<Vec<OutUnit>, FormatFault>
    ensures { Builds text.now result }
{
    let mut units = Vec::new(alloc);
    let mut groups: SmallVec<Group, 16> = SmallVec::new(alloc);
    for (place, byte) in text.iter().enumerate() {
        if let Some(unit) = letter(*byte) {
            units.push(unit)?;
        } else if let Some(closing) = closing_of(*byte) {
            groups.push(Group { place, closing })?;
        } else if is_closing(*byte) {
            if !closes(&mut groups, *byte) {
                return Err(FormatFault::Unbalanced(place));
            }
        } else if !is_blank(*byte) {
            return Err(FormatFault::UnknownUnit(place));
        }
    }
    match groups.pop() {
        None => Ok(units),
        Some(group) => Err(FormatFault::Unbalanced(group.place)),
    }
}

/// The unit that a byte spells.
fn letter(byte: u8) -> Option<OutUnit>
    ensures { result ≡ out_letter byte }
{
    match byte {
        b'O' | b'S' => Some(OutUnit::Keep),
        b'N' => Some(OutUnit::Take),
        b'i' => Some(OutUnit::Int),
        b'l' => Some(OutUnit::Long),
        b'n' => Some(OutUnit::Size),
        b's' | b'z' => Some(OutUnit::TextOrNull),
        _ => None,
    }
}

/// The byte that closes an opening bracket.
fn closing_of(byte: u8) -> Option<u8>
    ensures { result ≡ closing_of byte }
{
    match byte {
        b'(' => Some(b')'),
        b'[' => Some(b']'),
        b'{' => Some(b'}'),
        _ => None,
    }
}

fn is_closing(byte: u8) -> bool
    ensures { result ≡ is_closing byte }
{
    matches!(byte, b')' | b']' | b'}')
}

/// Whether the byte stands between units and has no meaning.
fn is_blank(byte: u8) -> bool
    ensures { result ≡ is_blank byte }
{
    matches!(byte, b' ' | b'\t' | b',' | b':')
}

/// Whether the byte closes the bracket that was opened last. Then that one is open no more.
fn closes(groups: &mut SmallVec<Group, 16>, byte: u8) -> bool
    ensures { Closes (reverse groups.old.items) byte (reverse groups.new.items) result }
{
    match groups.pop() {
        Some(group) => group.closing == byte,
        None => false,
    }
}
