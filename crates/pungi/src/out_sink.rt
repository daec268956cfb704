ghost use Rattle.std.specs.Prelude.{◌≡◌, []};
ghost use Rattle.std.specs.List.{concat};

use pungi_io::{Failed, History, Sink};
use std::io::{Stdout, Write};

/// The standard output. Of the bytes that the system took it keeps what clauses see.
#[derive(Drop)]
pub struct OutSink {
    out: Stdout,
    bytes_written: History,
    faults: u64,
}

impl OutSink {
    /// A sink that took nothing yet, and where no call failed.
    pub fn new(out: Stdout) -> OutSink
        ensures bytes_written { ⟦<OutSink as Sink>⟧.bytes_written result ≡ [] }
        ensures faults { ⟦<OutSink as Sink>⟧.faults result ≡ 0 }
    {
        OutSink {
            out,
            bytes_written: History::new(),
            faults: 0,
        }
    }
}

impl Sink for OutSink {
    ghost bytes_written = { λ s. concat s.bytes_written.pieces };

    ghost faults = { λ s. s.faults };

    fn write(&mut self, piece: &[u8]) -> Result<usize, Failed> {
        match self.out.write(piece) {
            Ok(count) if count > 0 || piece.is_empty() => {
                self.bytes_written.add(&piece[..count]);
                Ok(count)
            }
            _ => {
                self.faults = self.faults.saturating_add(1);
                Err(Failed)
            }
        }
    }
}
