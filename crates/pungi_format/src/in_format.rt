ghost use Rattle.std.specs.Prelude.{◌≡◌, ◌+◌, ◌<◌, ◌==◌, length, take, drop, slice_index, is_some};
ghost use Rattle.std.specs.List.{before_first, position};
ghost use Rattle.pungi_format.specs.InFormat.{ends_units, has_bar, in_letter, in_rule, unit_before, Parses, ReadsUnits};

use crate::{FormatFault, InUnit};
use pungi_base::Seq;
use std::alloc::Global;

/// The byte of an object.
const OBJECT: u8 = b'O';
/// The byte after that of an object whose type stands before it.
const TYPED: u8 = b'!';
/// The byte that begins the optional units.
const BAR: u8 = b'|';
/// The byte that ends the units before the name of the function.
const NAME: u8 = b':';
/// The byte that ends the units before a message.
const MESSAGE: u8 = b';';

/// The units of a format that takes arguments apart.
#[derive(Debug, Drop)]
pub struct InFormat {
    pub units: Seq<InUnit>,
    /// How many units stand before the bar, or all where there is no bar.
    pub required: usize,
}

/// Reads a format of `PyArg_ParseTuple`. The first fault from the left wins.
pub fn parse_units(alloc: Global, text: &[u8]) -> Result<InFormat, FormatFault>
    ensures { Parses text.now result }
{
    read_units(alloc, units_part(text))
}

/// What stands before the name or the message.
fn units_part(text: &[u8]) -> &[u8]
    ensures { result.now ≡ before_first ends_units text.now }
{
    match units_end(text) {
        Some(end) => &text[..end],
        None => text,
    }
}

/// Where the units end, if before the end of the text.
fn units_end(text: &[u8]) -> Option<usize>
    ensures { result ≡ position ends_units text.now }
{
    text.iter()
        .position(|byte| *byte == NAME || *byte == MESSAGE)
}

fn read_units(alloc: Global, text: &[u8]) -> Result<InFormat, FormatFault>
    ensures { ReadsUnits text.now result }
{
    let mut units = Seq::new(Vec::new(alloc));
    let mut required = None;
    for (place, byte) in text.iter().enumerate() {
        if let Some(fault) = fault_at(text, place, required.is_some()) {
            return Err(fault);
        }
        if *byte == BAR {
            required = Some(units.len());
        } else if let Some(unit) = unit_at(text, place) {
            units.push(unit)?;
        }
    }
    let required = required.unwrap_or(units.len());
    Ok(InFormat { units, required })
}

/// The unit that begins at a place.
fn unit_at(text: &[u8], place: usize) -> Option<InUnit>
    requires { place < length text.now }
    ensures { result ≡ unit_before (slice_index text.now place) (drop (place + 1) text.now) }
{
    let byte = text[place];
    if byte == OBJECT && place + 1 < text.len() && text[place + 1] == TYPED {
        return Some(InUnit::ObjectOf);
    }
    letter(byte)
}

/// The unit that a byte alone spells.
fn letter(byte: u8) -> Option<InUnit>
    ensures { result ≡ in_letter byte }
{
    match byte {
        b'O' | b'S' | b'U' => Some(InUnit::Object),
        b'i' => Some(InUnit::Int),
        b'l' => Some(InUnit::Long),
        b'n' => Some(InUnit::Size),
        b'p' => Some(InUnit::Truth),
        b's' => Some(InUnit::Text),
        b'z' => Some(InUnit::TextOrNull),
        _ => None,
    }
}

/// What is wrong at a place, where a bar was or wasn't seen before it.
fn fault_at(text: &[u8], place: usize, optional: bool) -> Option<FormatFault>
    requires within { place < length text.now }
    requires bar { optional ≡ has_bar (take place text.now) }
    ensures { result ≡ in_rule (take place text.now) (slice_index text.now place) }
{
    let is_known = match text[place] {
        BAR => {
            if optional {
                return Some(FormatFault::Order(place));
            }
            true
        }
        TYPED => place > 0 && text[place - 1] == OBJECT,
        byte => letter(byte).is_some(),
    };
    if is_known {
        None
    } else {
        Some(FormatFault::UnknownUnit(place))
    }
}
