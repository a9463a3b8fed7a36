//! Sources in memory, for tests and for bytes that are made.
ghost use Rattle.std.specs.Prelude.{◌≡◌, ◌↔◌, ◌≤◌, ◌<◌, ◌+◌, ◌-◌, ◌++◌, [], Some, length, take, drop, min, Contains, IsErr, IfOk};
ghost use Rattle.std.specs.Io.{ReadsAtMost};
ghost use Rattle.std.specs.Io.KnownBytes.{ReadConsumes};
ghost use Rattle.port_io.specs.Counts.{CountsFaults, next_count};

use crate::counts::{is_listed, next_count};
use crate::{Failed, Source};
use std::marker::Model;

/// Bytes in memory, given in pieces, with calls that fail.
#[derive(Drop)]
pub struct MemSource {
    bytes: Vec<u8>,
    at: usize,
    piece: usize,
    fails: Vec<u32>,
    calls: u64,
    faults: u64,
}

impl Model for MemSource {
    ghost use Rattle.std.specs.Prelude.{◌≤◌, length, drop};
    ghost use Rattle.port_io.specs.Streams.{SourceState};

    ghost Value = { SourceState };

    ghost view = { λ s. record {
      left = drop s.at s.bytes.items;
      piece = s.piece;
      fails = s.fails.items;
      calls = s.calls;
      faults = s.faults;
    } };

    ghost invariant = { λ s. (s.at ≤ length s.bytes.items) × (1 ≤ s.piece) };
}

impl MemSource {
    ghost use Rattle.std.specs.Prelude.{◌≡◌, ◌≤◌};
    ghost use Rattle.port_io.specs.Streams.{new_source};

    /// A source of these bytes that gives at most `piece` of them in a read, and fails in the calls
    /// whose numbers, from 1, stand in `fails`.
    pub fn new(bytes: Vec<u8>, piece: usize, fails: Vec<u32>) -> MemSource
        requires { 1 ≤ piece }
        ensures { result ≡ new_source bytes.items piece fails.items }
    {
        MemSource {
            bytes,
            at: 0,
            piece,
            fails,
            calls: 0,
            faults: 0,
        }
    }
}

impl Source for MemSource {
    ghost left = { λ s. Some s.left };

    ghost faults = { λ s. s.faults };

    fn read(&mut self, buf: &mut [u8]) -> Result<usize, Failed>
        ensures bound { ReadsAtMost result buf.new }
        ensures bytes { ReadConsumes (Some self.old.left) (Some self.new.left) result buf.new }
        ensures counted { CountsFaults self.old.faults self.new.faults result }

        ensures call { self.new.calls ≡ next_count self.old.calls }
        ensures failed { IsErr result ↔ Contains self.old.fails self.new.calls }
        ensures given { IfOk result
            (λ n. n ≡ min (min self.old.piece (length self.old.left)) (length buf.new)) }
        ensures piece { self.new.piece ≡ self.old.piece }
        ensures fails { self.new.fails ≡ self.old.fails }
    {
        self.calls = next_count(self.calls);
        if is_listed(&self.fails, self.calls) {
            self.faults = next_count(self.faults);
            return Err(Failed);
        }
        let count = copy_from(&self.bytes, self.at, self.piece, buf);
        self.at += count;
        Ok(count)
    }
}

/// Bytes in memory that never fail. Contracts see the bytes that are left.
#[derive(Drop)]
pub struct SureSource {
    bytes: Vec<u8>,
    at: usize,
}

impl Model for SureSource {
    ghost use Rattle.std.specs.Prelude.{ℕ, List, ◌≤◌, length, drop};

    ghost Value = { List ℕ };

    ghost view = { λ s. drop s.at s.bytes.items };

    ghost invariant = { λ s. s.at ≤ length s.bytes.items };
}

impl SureSource {
    /// A source of these bytes.
    pub fn new(bytes: Vec<u8>) -> SureSource
        ensures { result ≡ bytes.items }
    {
        SureSource { bytes, at: 0 }
    }
}

impl Source for SureSource {
    ghost left = { λ s. Some s };

    ghost faults = { λ _. 0 };

    fn read(&mut self, buf: &mut [u8]) -> Result<usize, Failed>
        ensures bound { ReadsAtMost result buf.new }
        ensures bytes { ReadConsumes (Some self.old) (Some self.new) result buf.new }
        ensures counted { CountsFaults 0 0 result }
        ensures given { result ≡ Ok (min (length self.old) (length buf.new)) }
    {
        let piece = self.bytes.len();
        let count = copy_from(&self.bytes, self.at, piece, buf);
        self.at += count;
        Ok(count)
    }
}

// Copies the bytes from a place on to the front of the buffer, at most a piece of them.
fn copy_from(bytes: &[u8], at: usize, piece: usize, buf: &mut [u8]) -> usize
    requires { at ≤ length bytes.now }
    ensures count { result ≡ min (min piece (length bytes.now - at)) (length buf.new) }
    ensures taken { drop at bytes.now ≡ take result buf.new ++ drop (at + result) bytes.now }
{
    let rest = &bytes[at..];
    let count = rest.len().min(piece).min(buf.len());
    buf[..count].copy_from_slice(&rest[..count]);
    count
}
