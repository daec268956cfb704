ghost use Rattle.std.specs.Prelude.{◌≡◌, ◌≤◌, ◌<◌, ℕ, [], List, length, IfOk, OnOk, OnErr, Ok};
ghost use Rattle.pungi_io.specs.Shelf.{Rose, Grew};
ghost use Rattle.pungi_in_memory.specs.SureSink.{KeptState, kept_wrote};

use pungi_base::Memory;
use pungi_io::{Failed, History, Sink};
use std::alloc::Global;
use std::marker::Model;

/// A sink that takes every byte and never fails. It keeps the first bytes, as many as it has room for.
#[derive(Drop)]
pub struct SureSink {
    room: usize,
    bytes: Vec<u8>,
    bytes_written: History,
}

impl Model for SureSink {
    ghost use Rattle.std.specs.Prelude.{◌≤◌, vec_len, vec_capacity};
    ghost use Rattle.std.specs.List.{concat};
    ghost use Rattle.pungi_in_memory.specs.SureSink.{KeptState};

    ghost Value = { KeptState };

    ghost view = { λ s. record {
      room = s.room;
      bytes = s.bytes.items;
      bytes_written = concat s.bytes_written.pieces;
    } };

    ghost invariant = { λ s. (vec_len s.bytes ≤ s.room) × (s.room ≤ vec_capacity s.bytes) };
}

impl SureSink {
    /// A sink that keeps so many bytes.
    pub fn new(alloc: Global, room: usize) -> Result<SureSink, Memory>
        ensures { IfOk result (λ sink. sink ≡ record { room = room; bytes = []; bytes_written = [] }) }
    {
        let bytes = Vec::with_capacity(alloc, room)?;
        Ok(SureSink {
            room,
            bytes,
            bytes_written: History::new(),
        })
    }

    /// The first bytes that came.
    pub fn bytes(&self) -> &[u8]
        ensures { result.now ≡ self.now.bytes }
    {
        self.bytes.as_slice()
    }
}

impl Sink for SureSink {
    ghost bytes_written = { λ s. s.bytes_written };

    ghost faults = { λ _. 0 };

    fn write(&mut self, piece: &[u8]) -> Result<usize, Failed>
        ensures within { IfOk result (λ count. count ≤ length piece.now) }
        ensures some { IfOk result (λ count. 0 < length piece.now → 0 < count) }
        ensures bytes { Grew self.old.bytes_written self.new.bytes_written result piece.now }
        ensures steady { OnOk result (let none : ℕ = 0 in none ≡ none) }
        ensures failed { OnErr result (Rose 0 0) }

        ensures all { result ≡ Ok (length piece.now) }
        ensures next { self.new ≡ kept_wrote self.old piece.now }
    {
        let room = self.room - self.bytes.len();
        let count = piece.len().min(room);
        self.bytes.extend_from_slice(&piece[..count]).unwrap();
        self.bytes_written.add(piece);
        Ok(piece.len())
    }
}
