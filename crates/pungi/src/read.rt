ghost use Rattle.std.specs.Prelude.{◌≡◌, ◌++◌, ◌∷◌, [], List, vec_len, IfOk, Err};
ghost use Rattle.pungi_io.specs.OpenedText.{Opened, just_opened};
ghost use Rattle.pungi_io.specs.Shelf.{Rose, Opens};
ghost use Rattle.pungi.specs.Read.{IsReading};

use pungi_io::{Failed, OpenFault, Shelf};
use std::alloc::{AllocError, Global};

/// How many bytes are requested at a time.
const PIECE: usize = 65536;

/// What a file holds, or that it is over the limit.
#[derive(Debug, Drop)]
pub enum Reading {
    /// All of its bytes.
    Text(Vec<u8>),
    /// It has more bytes than the limit.
    Long,
}

/// Room for pieces of this many bytes.
fn room(alloc: Global, size: usize) -> Result<Vec<u8>, AllocError>
    ensures { IfOk result (λ piece. vec_len piece ≡ size) }
{
    vec![in alloc; 0u8; size]
}

/// Reads the opened text of a name, to its end or until it is over the limit.
pub fn read_opened<F: Shelf>(
    alloc: Global,
    shelf: &mut F,
    name: &str,
    limit: usize,
) -> Result<Reading, OpenFault>
    requires opened { Opens (F.texts shelf.old) name.now (F.rest shelf.old) }
    ensures ok { IfOk result (λ reading. (before : List Opened)
        → F.opened shelf.old ≡ before ++ just_opened name.now ∷ []
        → IsReading (F.texts shelf.old) before (F.opened shelf.new) name.now limit reading) }
    ensures steady { (result ≡ Err OpenFault.Failed → ⊥) → F.faults shelf.new ≡ F.faults shelf.old }
    ensures failed { result ≡ Err OpenFault.Failed → Rose (F.faults shelf.old) (F.faults shelf.new) }
    ensures texts { F.texts shelf.new ≡ F.texts shelf.old }
    ensures names_opened { F.names_opened shelf.new ≡ F.names_opened shelf.old }
{
    let mut bytes = Vec::new(alloc);
    let mut piece = room(alloc, PIECE)?;
    'reads: while bytes.len() <= limit {
        let count = match shelf.read(&mut piece) {
            Ok(count) => count,
            Err(Failed) => return Err(OpenFault::Failed),
        };
        if count == 0 {
            return Ok(Reading::Text(bytes));
        }
        bytes.extend_from_slice(&piece[..count])?;
    }
    Ok(Reading::Long)
}
