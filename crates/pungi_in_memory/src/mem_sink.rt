ghost use Rattle.std.specs.Prelude.{◌≡◌, ◌≤◌, ◌<◌, ◌+◌, ℕ, [], List, length, take, IfOk, OnErr, OnOk, is_err};
ghost use Rattle.pungi_io.specs.Shelf.{Rose, Grew};
ghost use Rattle.pungi_in_memory.specs.MemSink.{SinkState, write_fails, write_count, sink_failed, sink_wrote};

use pungi_base::Memory;
use pungi_io::{Failed, Sink};
use std::alloc::Global;
use std::marker::Model;

/// A sink in memory with a fixed room, which takes a few bytes at a time and fails at given calls.
#[derive(Drop)]
pub struct MemSink {
    room: usize,
    step: usize,
    failing: Vec<u64>,
    calls: u64,
    faults: u64,
    bytes: Vec<u8>,
}

impl Model for MemSink {
    ghost use Rattle.std.specs.Prelude.{◌≤◌, ◌<◌, vec_len, vec_capacity};
    ghost use Rattle.pungi_in_memory.specs.MemSink.{SinkState};

    ghost Value = { SinkState };

    ghost view = { λ s. record {
      room = s.room;
      step = s.step;
      failing = s.failing.items;
      calls = s.calls;
      faults
          = s.faults;
      bytes = s.bytes.items;
    } };

    ghost invariant = { λ s. (0 < s.step) × (vec_len s.bytes ≤ s.room) × (s.room ≤ vec_capacity s.bytes) };
}

impl MemSink {
    /// A sink that takes so many bytes in all, and at most `step` of them at a call. The calls with these numbers fail,
    /// counted from 1.
    pub fn new(
        alloc: Global,
        room: usize,
        step: usize,
        failing: Vec<u64>,
    ) -> Result<MemSink, Memory>
        requires { 0 < step }
        ensures { IfOk result (λ sink. sink ≡ record {
          room = room;
          step = step;
          failing = failing.items;
          calls = 0;
          faults = 0;
          bytes = [];
        }) }
    {
        let bytes = Vec::with_capacity(alloc, room)?;
        Ok(MemSink {
            room,
            step,
            failing,
            calls: 0,
            faults: 0,
            bytes,
        })
    }

    /// The bytes taken so far.
    pub fn bytes(&self) -> &[u8]
        ensures { result.now ≡ self.now.bytes }
    {
        self.bytes.as_slice()
    }
}

impl Sink for MemSink {
    ghost bytes_written = { λ s. s.bytes };

    ghost faults = { λ s. s.faults };

    fn write(&mut self, piece: &[u8]) -> Result<usize, Failed>
        ensures within { IfOk result (λ count. count ≤ length piece.now) }
        ensures some { IfOk result (λ count. 0 < length piece.now → 0 < count) }
        ensures bytes { Grew self.old.bytes self.new.bytes result piece.now }
        ensures steady { OnOk result (self.new.faults ≡ self.old.faults) }
        ensures failed { OnErr result (Rose self.old.faults self.new.faults) }

        ensures fails { is_err result ≡ write_fails self.old piece.now }
        ensures err { OnErr result (self.new ≡ sink_failed self.old) }
        ensures count { IfOk result (λ count. count ≡ write_count self.old piece.now) }
        ensures ok { IfOk result (λ count. self.new ≡ sink_wrote self.old (take count piece.now)) }
    {
        self.calls = self.calls.saturating_add(1);
        let room = self.room - self.bytes.len();
        if self.failing.contains(&self.calls) || (!piece.is_empty() && room == 0) {
            self.faults = self.faults.saturating_add(1);
            return Err(Failed);
        }
        let count = piece.len().min(self.step.min(room));
        self.bytes.extend_from_slice(&piece[..count]).unwrap();
        Ok(count)
    }
}
