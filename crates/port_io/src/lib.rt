//! Sources and sinks of bytes that count their faults.
//!
//! A `Source` gives bytes and a `Sink` takes them, each in pieces of its own choosing. What a
//! source has left and what a sink holds are told to contracts where the stream knows them:
//! streams in memory do, and the adapters over std do not. The crate's one contract: a call
//! answers `Failed` only where the count of faults rose in it, and then no byte was taken or
//! added; any other answer leaves the count, and takes or adds the bytes that it says.
//! `read_all` and `write_all` carry that over to whole runs.
//!
//! It stands on `frac_core` for `OutOfMemory` alone.
//! Its tests stand in the crate `edge_tests`.
//!
//! `rq_cli` reads and writes so:
//! ```text
//! match read_all(alloc, source) {
//!     Ok(bytes) => Ok(bytes),
//!     Err(ReadFault::Failed) => Err(Fault::Source),
//!     Err(ReadFault::TooLong) => Err(Fault::Halt(Halt::Refused(Refusal::TooLong))),
//!     Err(ReadFault::OutOfMemory) => Err(Fault::Halt(Halt::OutOfMemory)),
//! }
//!
//! match write_all(out, text) {
//!     Ok(()) => Outcome::Done(report),
//!     Err(Failed) => {
//!         let _tried = write_all(err, SINK_LINE);
//!         drop(report);
//!         Outcome::SinkFault
//!     }
//! }
//! ```
#![tactic(auto)]

mod counts;
mod mem_sink;
mod mem_source;
mod reading;
mod sink;
mod source;
mod std_streams;
mod writing;

pub use mem_sink::MemSink;
pub use mem_source::{MemSource, SureSource};
pub use reading::{ReadFault, read_all};
pub use sink::Sink;
pub use source::Source;
pub use std_streams::{StdSink, StdSource};
pub use writing::write_all;

/// A read or a write that failed.
#[derive(Clone, Copy, Debug, PartialEq, Eq)]
pub struct Failed;
