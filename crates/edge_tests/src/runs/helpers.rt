//! Runs of words on tables, and what they leave on the outputs, which is held to what is wanted.

use crate::helpers::{copied, push, put_record, text_of};
use port_io::{MemSink, Source, SureSource};
use rq_cli::run;
use rq_fan::{Gate, Open};
use std::alloc::Global;
use std::process::Abort;
use std::str::from_utf8;
use std::thread::Threads;

/// The words of a run at the median.
pub(crate) const MEDIAN: &str = "process|--formula|y ~ 1|--lo|1/2|--hi|1/2";

/// How the outputs behave: the room of standard output and the bytes of a write, its write that fails, and that of standard error, where
/// none fails at 0.
#[derive(Clone, Copy)]
pub(crate) struct Outputs {
    pub room: usize,
    pub piece: usize,
    pub write: u32,
    pub telling: u32,
}

/// Outputs that take all.
pub(crate) static SOUND: Outputs = Outputs {
    room: 262_144,
    piece: 4096,
    write: 0,
    telling: 0,
};

/// What a run leaves: its exit status and what stands on the outputs.
#[derive(Drop)]
pub(crate) struct Left {
    pub status: u8,
    pub printed: Vec<u8>,
    pub told: Vec<u8>,
}

// The words of a run, written with bars between them.
fn words_of(rt: &impl Abort, alloc: Global, line: &str) -> Vec<String> {
    let mut words = Vec::new(alloc);
    for word in line.split('|') {
        push(rt, &mut words, text_of(rt, alloc, word));
    }
    words
}

// The run and its status. It has no clause: a test compares what is left, and needs nothing of what is
// proved. The outcome is let go by its type, which takes less to prove than to let go of its kinds here.
fn status_of<R: Threads + Sync, S: Source, G: Gate>(
    rt: &R,
    alloc: Global,
    words: &[String],
    source: &mut S,
    out: &mut MemSink,
    err: &mut MemSink,
    gate: &G,
) -> u8 {
    let outcome = run(rt, alloc, words, source, out, err, gate);
    let code = outcome.code();
    drop(outcome);
    code
}

// A sink of so much room that takes so many bytes a write, and whose write of this number fails.
fn sink(rt: &impl Abort, alloc: Global, (room, piece): (usize, usize), write: u32) -> MemSink {
    assert!(rt; piece > 0);
    let fails = copied(rt, alloc, &[write]);
    MemSink::new(alloc, room, piece, fails)
        .ok()
        .expect(rt, "memory")
}

/// A run of the words over a source, whose jobs pass this gate.
pub(crate) fn ran_past<R: Abort + Threads + Sync, S: Source, G: Gate>(
    rt: &R,
    alloc: Global,
    line: &str,
    source: &mut S,
    outputs: Outputs,
    gate: &G,
) -> Left {
    let words = words_of(rt, alloc, line);
    let mut out = sink(rt, alloc, (outputs.room, outputs.piece), outputs.write);
    let mut err = sink(rt, alloc, (4096, outputs.piece), outputs.telling);
    let status = status_of(rt, alloc, &words, source, &mut out, &mut err, gate);
    Left {
        status,
        printed: copied(rt, alloc, out.written()),
        told: copied(rt, alloc, err.written()),
    }
}

/// A run of the words over a source.
pub(crate) fn ran<R: Abort + Threads + Sync, S: Source>(
    rt: &R,
    alloc: Global,
    line: &str,
    source: &mut S,
    outputs: Outputs,
) -> Left {
    ran_past(rt, alloc, line, source, outputs, &Open)
}

/// A run of the words on bytes, whose jobs pass this gate, where nothing fails.
pub(crate) fn ran_at<R: Abort + Threads + Sync, G: Gate>(
    rt: &R,
    alloc: Global,
    line: &str,
    bytes: &[u8],
    gate: &G,
) -> Left {
    let mut source = SureSource::new(copied(rt, alloc, bytes));
    ran_past(rt, alloc, line, &mut source, SOUND, gate)
}

/// A run of the words on a table, where nothing fails.
pub(crate) fn ran_on<R: Abort + Threads + Sync>(
    rt: &R,
    alloc: Global,
    line: &str,
    table: &[u8],
) -> Left {
    ran_at(rt, alloc, line, table, &Open)
}

/// The table of one column with the records 1, 2 and so on.
pub(crate) fn counted(rt: &impl Abort, alloc: Global, most: u32) -> String {
    let mut table = text_of(rt, alloc, "y\n");
    for record in 1..=most {
        put_record(rt, alloc, &mut table, &[record]);
    }
    table
}

/// The run ended with this status, printed so many bytes of a report, and told this line.
pub(crate) fn expect_left(
    rt: &impl Abort,
    left: &Left,
    status: u8,
    (report, length): (&str, usize),
    told: &str,
) {
    let printed = from_utf8(left.printed.as_slice());
    let line = from_utf8(left.told.as_slice());
    assert!(rt; left.status == status, "{told:?} {length}: {line:?}");
    assert!(rt;
        left.told.as_slice() == told.as_bytes(),
        "{told:?} {length}: {line:?}"
    );
    assert!(rt;
        left.printed.len() == length,
        "{told:?} {length}: {printed:?}"
    );
    assert!(rt;
        report.as_bytes().starts_with(&left.printed),
        "{report}: {printed:?}"
    );
}

/// The run printed this report and nothing else.
pub(crate) fn assert_printed(rt: &impl Abort, left: &Left, report: &str) {
    expect_left(rt, left, 0, (report, report.len()), "");
}

/// The run printed nothing, and told this line.
pub(crate) fn assert_refused(rt: &impl Abort, left: &Left, status: u8, told: &str) {
    expect_left(rt, left, status, ("", 0), told);
}
