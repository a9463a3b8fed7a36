//! A sink in memory, for tests.
ghost use Rattle.std.specs.Prelude.{◌≡◌, ◌↔◌, ◌≤◌, ◌<◌, ◌+◌, ◌-◌, ◌++◌, ◌⊎◌, [], Some, length, take, min, Contains, IsErr, IfOk};
ghost use Rattle.std.specs.Io.{WritesAtMost};
ghost use Rattle.std.specs.Io.KnownBytes.{WriteAppends};
ghost use Rattle.port_io.specs.Counts.{CountsFaults, next_count};

use crate::counts::{is_listed, next_count};
use crate::{Failed, Sink};
use frac_core::OutOfMemory;
use std::alloc::Global;
use std::marker::Model;

/// Room in memory for what is written, with calls that fail.
#[derive(Drop)]
pub struct MemSink {
    bytes: Vec<u8>,
    room: usize,
    piece: usize,
    fails: Vec<u32>,
    calls: u64,
    faults: u64,
}

impl Model for MemSink {
    ghost use Rattle.std.specs.Prelude.{◌≤◌, vec_len, vec_capacity};
    ghost use Rattle.port_io.specs.Streams.{SinkState};

    ghost Value = { SinkState };

    ghost view = { λ s. record {
      written = s.bytes.items;
      room = s.room;
      piece = s.piece;
      fails = s.fails.items;
      calls = s.calls;
      faults = s.faults;
    } };

    ghost invariant = { λ s.
        (vec_len s.bytes ≤ s.room) × (s.room ≤ vec_capacity s.bytes) × (1 ≤ s.piece) };
}

impl MemSink {
    ghost use Rattle.std.specs.Prelude.{◌≡◌, ◌≤◌, IfOk};
    ghost use Rattle.port_io.specs.Streams.{new_sink};

    /// A sink with room for `room` bytes that takes at most `piece` of them in a write, and fails
    /// in the calls whose numbers, from 1, stand in `fails`. It takes all its memory here.
    pub fn new(
        alloc: Global,
        room: usize,
        piece: usize,
        fails: Vec<u32>,
    ) -> Result<MemSink, OutOfMemory>
        requires { 1 ≤ piece }
        ensures { IfOk result (λ sink. sink ≡ new_sink room piece fails.items) }
    {
        match Vec::with_capacity(alloc, room) {
            Ok(bytes) => Ok(MemSink {
                bytes,
                room,
                piece,
                fails,
                calls: 0,
                faults: 0,
            }),
            Err(_) => Err(OutOfMemory),
        }
    }

    /// The bytes that were written.
    pub fn written(&self) -> &[u8]
        ensures { result.now ≡ self.now.written }
    {
        &self.bytes
    }
}

impl Sink for MemSink {
    ghost written = { λ s. Some s.written };

    ghost faults = { λ s. s.faults };

    fn write(&mut self, buf: &[u8]) -> Result<usize, Failed>
        ensures bound { WritesAtMost result buf.now }
        ensures some { IfOk result (λ n. 0 < length buf.now → 0 < n) }
        ensures bytes { WriteAppends (Some self.old.written) (Some self.new.written) result
            buf.now }
        ensures counted { CountsFaults self.old.faults self.new.faults result }

        ensures call { self.new.calls ≡ next_count self.old.calls }
        ensures failed { IsErr result
            ↔ (Contains self.old.fails self.new.calls
            ⊎ ((0 < length buf.now) × (length self.old.written ≡ self.old.room))) }
        ensures taken { IfOk result
            (λ n. n
            ≡ min (min self.old.piece (self.old.room - length self.old.written)) (length buf.now)) }
        ensures room { self.new.room ≡ self.old.room }
        ensures piece { self.new.piece ≡ self.old.piece }
        ensures fails { self.new.fails ≡ self.old.fails }
    {
        self.calls = next_count(self.calls);
        let room = self.room - self.bytes.len();
        if is_listed(&self.fails, self.calls) || (room == 0 && !buf.is_empty()) {
            self.faults = next_count(self.faults);
            return Err(Failed);
        }
        let count = room.min(self.piece).min(buf.len());
        self.bytes.extend_from_slice(&buf[..count]).unwrap();
        Ok(count)
    }
}
