ghost use Rattle.std.specs.Prelude.{◌≡◌, ◌⊎◌, ◌∷◌, [], ◌++◌, IfOk, OnOk, OnErr};
ghost use Rattle.pungi.specs.Load.{IsLoaded};
ghost use Rattle.pungi.specs.Shelves.{stand_of};

use crate::answer::{Answer, unread_answer};
use crate::read::{Reading, read_opened};
use pungi_base::Memory;
use pungi_io::{OpenFault, Shelf};
use std::alloc::Global;

/// What came of opening and reading a file.
#[derive(Debug, Drop)]
pub enum Loaded {
    /// All of its bytes.
    Text(Vec<u8>),
    /// It has more bytes than the limit.
    Long,
    /// A call failed: the answer that goes with it.
    Unread(Answer),
}

/// Opens and reads the file of a name, if it is within the limit.
pub fn load<F: Shelf>(
    alloc: Global,
    shelf: &mut F,
    name: &str,
    limit: usize,
) -> Result<Loaded, Memory>
    ensures loaded { IfOk result (λ loaded. let at = stand_of F.texts F.opened F.names_opened F.faults in
        IsLoaded (at shelf.old) (at shelf.new) name.now limit loaded) }
    ensures names_opened { OnOk result (F.names_opened shelf.new ≡ F.names_opened shelf.old ++ name.now ∷ []) }
    ensures memory { OnErr result ((F.names_opened shelf.new ≡ F.names_opened shelf.old)
        ⊎ (F.names_opened shelf.new ≡ F.names_opened shelf.old ++ name.now ∷ [])) }
    ensures steady { OnErr result (F.faults shelf.new ≡ F.faults shelf.old) }
    ensures texts { F.texts shelf.new ≡ F.texts shelf.old }
{
    // Made first, so that a call that fails never ends in want of memory.
    let unread = unread_answer(alloc, name)?;
    match shelf.open(alloc, name) {
        Ok(()) => {}
        Err(OpenFault::Failed) => return Ok(Loaded::Unread(unread)),
        Err(OpenFault::Memory) => return Err(Memory),
    }
    match read_opened(alloc, shelf, name, limit) {
        Ok(Reading::Text(text)) => Ok(Loaded::Text(text)),
        Ok(Reading::Long) => Ok(Loaded::Long),
        Err(OpenFault::Failed) => Ok(Loaded::Unread(unread)),
        Err(OpenFault::Memory) => Err(Memory),
    }
}
