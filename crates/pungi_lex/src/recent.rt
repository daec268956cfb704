ghost use Rattle.std.specs.Prelude.{◌≡◌, ◌<◌, ◌-◌, ◌^◌, length, slice_get, Some, OnOk, OnErr, IfOk, IfSome};
ghost use Rattle.pungi_base.specs.Names.{with_text, AreNames};

use pungi_base::{Memory, Name, Names};
use std::alloc::{AllocError, Global};

/// How many numbers are kept.
const ROOM: usize = 2048;

/// Numbers that texts had when they came last, each at a place that follows from a few of the text's bytes. What stands
/// there is a guess, which is taken only if the text of that number is the text that is looked for.
#[derive(Drop)]
pub(crate) struct Recent {
    numbers: Vec<u32>,
}

/// The place of a text's number.
fn place_of(text: &[u8]) -> usize
    ensures { result < ROOM }
{
    if text.is_empty() {
        return 0;
    }
    let first = text[0] as usize;
    let middle = text[text.len() / 2] as usize;
    let last = text[text.len() - 1] as usize;
    (first * 5 + middle * 37 + last * 101 + text.len() % ROOM * 7) % ROOM
}

impl Recent {
    pub(crate) fn new(alloc: Global) -> Result<Recent, AllocError> {
        Ok(Recent {
            numbers: vec![in alloc; 0; ROOM]?,
        })
    }

    /// The number of a text that has the guessed number.
    fn guess(&self, names: &Names, text: &[u8]) -> Option<Name>
        ensures { IfSome result (λ name. slice_get names.now name.0 ≡ Some text.now) }
    {
        let name = Name(*self.numbers.get(place_of(text))?);
        if (name.0 as usize) < names.len() && names.text(name) == text {
            Some(name)
        } else {
            None
        }
    }

    /// Keeps a number for the next time that its text comes.
    fn keep(&mut self, text: &[u8], name: Name) {
        let place = place_of(text);
        if place < self.numbers.len() {
            self.numbers[place] = name.0;
        }
    }

    /// The number of a text among names, which gain it.
    pub(crate) fn number(
        &mut self,
        alloc: Global,
        names: &mut Names,
        text: &[u8],
    ) -> Result<Name, Memory>
        requires { length names.old < 2 ^ 32 - 1 }
        ensures ok { OnOk result (names.new ≡ with_text names.old text.now) }
        ensures number { IfOk result (λ name. slice_get names.new name.0 ≡ Some text.now) }
        ensures names { AreNames names.old → AreNames names.new }
        ensures err { OnErr result (names.new ≡ names.old) }
    {
        match self.guess(names, text) {
            Some(name) => Ok(name),
            None => {
                let name = names.number(alloc, text)?;
                self.keep(text, name);
                Ok(name)
            }
        }
    }
}
