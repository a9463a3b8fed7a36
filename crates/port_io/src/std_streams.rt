//! The readers and writers of std as sources and sinks.
ghost use Rattle.std.specs.Prelude.{◌≡◌, ◌≤◌, ◌<◌, None, IfOk, IfSome, length, take};
ghost use Rattle.std.specs.Io.{WritesAtMost};
ghost use Rattle.std.specs.Io.KnownBytes.{Appends, WriteAppends};
ghost use Rattle.port_io.specs.Counts.{CountsFaults};

use crate::counts::next_count;
use crate::{Failed, Sink, Source};
use std::io::{Read, Write};
use std::marker::Model;

/// A source over a reader of std. Contracts see the reader and the count of faults. It tells the
/// bytes that the reader tells: all that are left of a slice, and none of standard input.
#[derive(Drop)]
pub struct StdSource<R> {
    reader: R,
    faults: u64,
}

impl<R> Model for StdSource<R> {
    ghost use Rattle.port_io.specs.Streams.{Counted};

    ghost Value = { Counted R };

    ghost view = { λ s. record { stream = s.reader; faults = s.faults } };
}

impl<R: Read> StdSource<R> {
    /// A source of what the reader gives.
    pub fn new(reader: R) -> StdSource<R>
        ensures { result ≡ record { stream = reader; faults = 0 } }
    {
        StdSource { reader, faults: 0 }
    }
}

impl<R: Read> Source for StdSource<R> {
    ghost left = { λ s. R.remaining s.stream };

    ghost faults = { λ s. s.faults };

    // Takes what one read of the reader takes. An error of the reader counts as a fault, and is never
    // taken for the end.
    fn read(&mut self, buf: &mut [u8]) -> Result<usize, Failed> {
        match self.reader.read(buf) {
            Ok(count) => Ok(count),
            Err(_) => {
                self.faults = next_count(self.faults);
                Err(Failed)
            }
        }
    }
}

/// A sink over a writer of std, which is flushed after each write. Contracts see the writer and the
/// count of faults. The sink tells no bytes of its own, since after a failed flush nobody knows what
/// arrived; each write says what the writer was handed.
#[derive(Drop)]
pub struct StdSink<W> {
    writer: W,
    faults: u64,
}

impl<W> Model for StdSink<W> {
    ghost use Rattle.port_io.specs.Streams.{Counted};

    ghost Value = { Counted W };

    ghost view = { λ s. record { stream = s.writer; faults = s.faults } };
}

impl<W: Write> StdSink<W> {
    /// A sink that hands on to the writer.
    pub fn new(writer: W) -> StdSink<W>
        ensures { result ≡ record { stream = writer; faults = 0 } }
    {
        StdSink { writer, faults: 0 }
    }
}

// How many of the first bytes the writer took, where it took some and was flushed.
fn write_and_flush<W: Write>(writer: &mut W, buf: &[u8]) -> Option<usize>
    ensures bound { IfSome result (λ n. n ≤ length buf.now) }
    ensures some { IfSome result (λ n. 0 < n) }
    ensures handed { IfSome result (λ n. Appends (W.contents writer.old) (W.contents writer.new)
        (take n buf.now)) }
{
    match writer.write(buf) {
        Ok(0) | Err(_) => None,
        Ok(count) => match writer.flush() {
            Ok(()) => Some(count),
            Err(_) => None,
        },
    }
}

impl<W: Write> Sink for StdSink<W> {
    ghost written = { λ _. None };

    ghost faults = { λ s. s.faults };

    // Hands the writer the first bytes, as many as the answer says. A write of nothing counts as a
    // fault, and so does a flush that fails.
    fn write(&mut self, buf: &[u8]) -> Result<usize, Failed>
        ensures bound { WritesAtMost result buf.now }
        ensures some { IfOk result (λ n. 0 < length buf.now → 0 < n) }
        ensures bytes { WriteAppends None None result buf.now }
        ensures counted { CountsFaults self.old.faults self.new.faults result }

        ensures handed { IfOk result (λ n. Appends (W.contents self.old.stream)
            (W.contents self.new.stream) (take n buf.now)) }
    {
        match write_and_flush(&mut self.writer, buf) {
            Some(count) => Ok(count),
            None => {
                self.faults = next_count(self.faults);
                Err(Failed)
            }
        }
    }
}
