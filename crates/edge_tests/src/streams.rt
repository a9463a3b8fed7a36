//! Streams in memory and over std: reads and writes that fail in their midst, and those that don't.

use port_io::{MemSink, MemSource, ReadFault, StdSink, StdSource, SureSource, read_all, write_all};
use std::alloc::Global;
use std::io;
use std::io::{Read, Write};
use std::process::Abort;

const TABLE: &[u8] = b"y\n1\n2\n3\n";

const REPORT: &[u8] = b"quantreg 1\nrecords 3 dropped 0\n";

// Each case: the most bytes of a read, the calls that fail, and whether the whole is read.
static READS: [(usize, &[u32], bool); 9] = [
    (4, &[], true),
    (4, &[1], false),
    (4, &[2], false),
    (4, &[3], false),
    (4, &[4], true),
    (1, &[9], false),
    (1, &[10], true),
    (100_000, &[2], false),
    (100_000, &[3, 0], true),
];

// Whether the table is read whole by such reads; else the source is what failed.
fn is_read(rt: &impl Abort, alloc: Global, piece: usize, fails: &[u32]) -> bool {
    assert!(rt; piece > 0);
    let bytes = TABLE.to_vec(alloc).ok().expect(rt, "memory");
    let fails = fails.to_vec(alloc).ok().expect(rt, "memory");
    let mut source = MemSource::new(bytes, piece, fails);
    match read_all(alloc, &mut source) {
        Ok(read) => {
            assert!(rt; read.as_slice() == TABLE);
            true
        }
        Err(fault) => {
            assert!(rt; fault == ReadFault::Failed);
            false
        }
    }
}

#[test]
fn reads_of_memory_fail_as_told(rt: HostRuntime) {
    for (piece, fails, whole) in &READS {
        let found = is_read(&rt, rt.alloc(), *piece, fails);
        assert!(rt; found == *whole, "{piece} {fails:?}");
    }
}

// Each case: the room, the most bytes of a write, the calls that fail, and how many bytes are held
// in the end.
static WRITES: [(usize, usize, &[u32], usize); 8] = [
    (100, 5, &[3], 10),
    (100, 5, &[1], 0),
    (100, 5, &[7], 30),
    (100, 5, &[8], 31),
    (100, 5, &[], 31),
    (31, 100, &[], 31),
    (30, 100, &[], 30),
    (0, 1, &[], 0),
];

// So many bytes of the report are held in the end.
fn expect_held(
    rt: &impl Abort,
    alloc: Global,
    room: usize,
    piece: usize,
    fails: &[u32],
    held: usize,
) {
    assert!(rt; piece > 0);
    let fails = fails.to_vec(alloc).ok().expect(rt, "memory");
    let mut sink = MemSink::new(alloc, room, piece, fails)
        .ok()
        .expect(rt, "memory");
    let written = write_all(&mut sink, REPORT);
    assert!(rt; written.is_ok() == (held == REPORT.len()), "{room} {piece}");
    assert!(rt; sink.written() == &REPORT[..held.min(31)], "{room} {piece}");
}

#[test]
fn writes_to_memory_fail_as_told(rt: HostRuntime) {
    for (room, piece, fails, held) in &WRITES {
        expect_held(&rt, rt.alloc(), *room, *piece, fails, *held);
    }
}

// More than the first room holds.
#[test]
fn a_large_source_is_read_whole(rt: HostRuntime) {
    let bytes = vec![in rt.alloc(); 7; 300_000].ok().expect(&rt, "memory");
    let mut source = SureSource::new(bytes);
    let read = read_all(rt.alloc(), &mut source).ok().expect(&rt, "bytes");
    assert!(rt; read.len() == 300_000);
    assert!(rt; read.iter().all(|byte| *byte == 7));
}

// Gives one byte a read, and fails in the read of this number.
#[derive(Drop)]
struct Dripping<'a> {
    left: &'a [u8],
    reads: u32,
    fails: u32,
}

impl<'a> Read for Dripping<'a> {
    fn read(&mut self, buf: &mut [u8]) -> io::Result<usize> {
        self.reads = self.reads.saturating_add(1);
        if self.reads == self.fails {
            return Err(io::Error::from(io::ErrorKind::BrokenPipe));
        }
        match (self.left.split_first(), buf.first_mut()) {
            (Some((byte, left)), Some(place)) => {
                *place = *byte;
                self.left = left;
                Ok(1)
            }
            _ => Ok(0),
        }
    }
}

// Whether the table is read whole where the read of this number fails; else that is the fault.
fn is_dripped(rt: &impl Abort, alloc: Global, fails: u32) -> bool {
    let reader = Dripping {
        left: TABLE,
        reads: 0,
        fails,
    };
    let read = read_all(alloc, &mut StdSource::new(reader));
    let is_whole = read.is_ok();
    assert!(rt;
        is_whole || read.err() == Some(ReadFault::Failed),
        "{fails}"
    );
    is_whole
}

#[test]
fn a_reader_of_std_is_a_source(rt: HostRuntime) {
    let read = read_all(rt.alloc(), &mut StdSource::new(TABLE));
    let read = read.ok().expect(&rt, "bytes");
    assert!(rt; read.as_slice() == TABLE);
    for (fails, whole) in [(1, false), (3, false), (9, false), (10, true)] {
        assert!(rt; is_dripped(&rt, rt.alloc(), fails) == whole, "{fails}");
    }
}

// Takes two bytes a write, and counts its writes and flushes. The write and the flush of these
// numbers fail, and the write numbered `idle` takes nothing.
#[derive(Drop)]
struct Sluggish {
    held: Vec<u8>,
    writes: u32,
    flushes: u32,
    bad_write: u32,
    bad_flush: u32,
    idle: u32,
}

impl Write for Sluggish {
    fn write(&mut self, buf: &[u8]) -> io::Result<usize> {
        self.writes = self.writes.saturating_add(1);
        if self.writes == self.bad_write {
            return Err(io::Error::from(io::ErrorKind::BrokenPipe));
        }
        if self.writes == self.idle {
            return Ok(0);
        }
        let count = buf.len().min(2);
        self.held.extend_from_slice(&buf[..count])?;
        Ok(count)
    }

    fn flush(&mut self) -> io::Result<()> {
        self.flushes = self.flushes.saturating_add(1);
        if self.flushes == self.bad_flush {
            return Err(io::Error::from(io::ErrorKind::BrokenPipe));
        }
        Ok(())
    }
}

// Each case: the bad write, the bad flush and the idle write; then whether all is written, how
// many bytes are held and how often the writer was flushed.
static SLUGGISH: [([u32; 3], bool, usize, u32); 5] = [
    ([0, 0, 0], true, 8, 4),
    ([3, 0, 0], false, 4, 2),
    ([0, 2, 0], false, 4, 2),
    ([0, 0, 4], false, 6, 3),
    ([5, 5, 5], true, 8, 4),
];

// What is left of the table that is written to such a writer.
fn sluggishly(alloc: Global, [bad_write, bad_flush, idle]: [u32; 3]) -> (bool, usize, u32) {
    let mut writer = Sluggish {
        held: Vec::new(alloc),
        writes: 0,
        flushes: 0,
        bad_write,
        bad_flush,
        idle,
    };
    let written = write_all(&mut StdSink::new(&mut writer), TABLE);
    (written.is_ok(), writer.held.len(), writer.flushes)
}

#[test]
fn a_writer_of_std_is_a_sink(rt: HostRuntime) {
    let mut held = Vec::new(rt.alloc());
    assert!(rt; write_all(&mut StdSink::new(&mut held), REPORT).is_ok());
    assert!(rt; held.as_slice() == REPORT);
    for (troubles, whole, len, flushes) in &SLUGGISH {
        let found = sluggishly(rt.alloc(), *troubles);
        assert!(rt; found == (*whole, *len, *flushes), "{troubles:?}");
    }
}

// Holds back what it takes until it is flushed, and counts the flushes.
#[derive(Drop)]
struct Holding {
    waiting: Vec<u8>,
    arrived: Vec<u8>,
    flushes: u32,
}

impl Write for Holding {
    fn write(&mut self, buf: &[u8]) -> io::Result<usize> {
        let count = buf.len().min(3);
        self.waiting.extend_from_slice(&buf[..count])?;
        Ok(count)
    }

    fn flush(&mut self) -> io::Result<()> {
        self.flushes = self.flushes.saturating_add(1);
        self.arrived.extend_from_slice(&self.waiting)?;
        self.waiting.clear();
        Ok(())
    }
}

// All that a sink says is written has left the writer's own room: 31 bytes in pieces of 3.
#[test]
fn each_write_is_flushed(rt: HostRuntime) {
    let mut writer = Holding {
        waiting: Vec::new(rt.alloc()),
        arrived: Vec::new(rt.alloc()),
        flushes: 0,
    };
    assert!(rt; write_all(&mut StdSink::new(&mut writer), REPORT).is_ok());
    assert!(rt; writer.arrived.as_slice() == REPORT);
    assert!(rt; writer.waiting.is_empty());
    assert!(rt; writer.flushes == 11);
}
