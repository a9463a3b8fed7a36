//! A run of a case, and what it left.

use crate::notation::bytes_of;
use crate::runs::case::{Case, Input, Wanted};
use port_io::{MemSink, SureSource};
use rq_cli::run;
use rq_fan::Open;
use std::alloc::Global;
use std::str::from_utf8;
use std::thread::Threads;

// A report has at most so many bytes here, and a sink takes so many a write.
const ROOM: usize = 262_144;

const PIECE: usize = 512;

/// The exit status of a run, and what stands on its outputs.
#[derive(Drop)]
pub(crate) struct Left {
    status: u8,
    printed: Vec<u8>,
    told: Vec<u8>,
}

impl Left {
    /// Whether this is what a case wants: its text behind which a line ends, and nothing else.
    pub(crate) fn is(&self, wanted: Wanted<'_>) -> bool {
        let printed = self.printed.as_slice().strip_suffix(b"\n");
        let told = self.told.as_slice().strip_suffix(b"\n");
        match wanted {
            Wanted::Report(report) => {
                self.status == 0 && self.told.is_empty() && printed == Some(report.as_bytes())
            }
            Wanted::End(end) => {
                self.status == 0
                    && self.told.is_empty()
                    && printed.is_some_and(|it| it.ends_with(end.as_bytes()))
            }
            Wanted::Fault { status, line } => {
                self.status == status && self.printed.is_empty() && told == Some(line.as_bytes())
            }
        }
    }

    /// The exit status.
    pub(crate) fn status(&self) -> u8 {
        self.status
    }

    /// What was printed, or else the line that was told.
    pub(crate) fn text(&self) -> &str {
        let bytes = if self.printed.is_empty() {
            &self.told
        } else {
            &self.printed
        };
        from_utf8(bytes.as_slice()).unwrap_or("bytes that are no text")
    }
}

fn words_of(alloc: Global, line: &str) -> Option<Vec<String>> {
    let mut words = Vec::new(alloc);
    if !line.is_empty() {
        for word in line.split('|') {
            words.push(String::from_str(alloc, word).ok()?).ok()?;
        }
    }
    Some(words)
}

// Lines, each with its end.
fn table_of(alloc: Global, lines: &str) -> Option<Vec<u8>> {
    let mut table = Vec::new(alloc);
    if !lines.is_empty() {
        for line in lines.split(';') {
            table.extend_from_slice(line.as_bytes()).ok()?;
            table.push(b'\n').ok()?;
        }
    }
    Some(table)
}

fn joined(alloc: Global, pieces: &[&str]) -> Option<Vec<u8>> {
    let mut bytes = Vec::new(alloc);
    for piece in pieces {
        bytes.extend_from_slice(piece.as_bytes()).ok()?;
    }
    Some(bytes)
}

fn input_bytes(alloc: Global, input: Input<'_>) -> Option<Vec<u8>> {
    match input {
        Input::Lines(lines) => table_of(alloc, lines),
        Input::Changed { before, to, after } => joined(alloc, &[before, to, after, "\n"]),
        Input::Whole(text) => bytes_of(alloc, text),
    }
}

fn sink(alloc: Global) -> Option<MemSink> {
    MemSink::new(alloc, ROOM, PIECE, Vec::new(alloc)).ok()
}

// The run and its status. The outcome is let go by its type, which takes less to prove than to let go of its kinds here.
fn status_of<R: Threads + Sync>(
    rt: &R,
    alloc: Global,
    words: &[String],
    source: &mut SureSource,
    out: &mut MemSink,
    err: &mut MemSink,
) -> u8 {
    let outcome = run(rt, alloc, words, source, out, err, &Open);
    let code = outcome.code();
    drop(outcome);
    code
}

// Runs words on bytes over streams in memory.
fn run_words<R: Threads + Sync>(rt: &R, alloc: Global, line: &str, bytes: Vec<u8>) -> Option<Left> {
    let words = words_of(alloc, line)?;
    let mut source = SureSource::new(bytes);
    let mut out = sink(alloc)?;
    let mut err = sink(alloc)?;
    let status = status_of(rt, alloc, &words, &mut source, &mut out, &mut err);
    Some(Left {
        status,
        printed: Vec::from_slice(alloc, out.written()).ok()?,
        told: Vec::from_slice(alloc, err.written()).ok()?,
    })
}

/// Runs a case, and on what it has printed the words of a second run, where it has those. None, where memory was wanting.
pub(crate) fn run_case<R: Threads + Sync>(rt: &R, alloc: Global, case: &Case<'_>) -> Option<Left> {
    let bytes = input_bytes(alloc, case.input)?;
    let left = run_words(rt, alloc, case.words, bytes)?;
    match case.next {
        Some(words) => run_words(rt, alloc, words, left.printed),
        None => Some(left),
    }
}
