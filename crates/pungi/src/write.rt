ghost use Rattle.std.specs.Prelude.{◌≡◌, ℕ, ◌<◌, ◌++◌, List, length, OnOk, OnErr};
ghost use Rattle.pungi_io.specs.Shelf.{Rose};

use pungi_io::{Failed, Sink};

/// Writes all of a text. After a failed write a front of it was taken.
pub fn write_all<O: Sink>(out: &mut O, text: &[u8]) -> Result<(), Failed>
    ensures ok { OnOk result (O.bytes_written out.new ≡ O.bytes_written out.old ++ text.now) }
    ensures err { OnErr result ((front : List ℕ) × (rest : List ℕ) × (text.now ≡ front ++ rest) × (0 < length rest)
        × (O.bytes_written out.new ≡ O.bytes_written out.old ++ front)) }
    ensures steady { OnOk result (O.faults out.new ≡ O.faults out.old) }
    ensures failed { OnErr result (Rose (O.faults out.old) (O.faults out.new)) }
{
    let mut rest = text;
    'pieces: while !rest.is_empty() {
        let count = out.write(rest)?;
        let (_, behind) = rest.split_at(count);
        rest = behind;
    }
    Ok(())
}
