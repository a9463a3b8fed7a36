//! All that the program does: words and a source of bytes to a report or a line.
//!
//! The one contract is `run`'s: after `Done` exactly the right report's text was added to standard
//! output, and after every other outcome nothing was, or a part where a write failed, and standard
//! error has the outcome's line; each outcome has its cause in the words, the bytes and the counts of
//! faults (`specs/Outcomes.antt`). It stands on `rq_engine` for reports and on `port_io` for streams.
//! Its cases stand in `cases`, and its tests in `edge_tests`.
//!
//! `program` and `status` hand a run on to `main` as its exit status. A caller that has the words and the streams itself calls
//! `run`; `quantreg` calls `program` so:
//! ```text
//! let Some(words) = arguments(&rt) else {
//!     return ExitCode::from(Outcome::OutOfMemory.code());
//! };
//! let mut input = StdSource::new(rt.stdin());
//! let mut output = StdSink::new(rt.stdout());
//! let mut errors = StdSink::new(rt.stderr());
//! ExitCode::from(program(&rt, rt.alloc(), &words, &mut input, &mut output, &mut errors))
//! ```
#![tactic(auto)]

mod outcome;
mod system;
mod top;

pub use outcome::Outcome;
pub use system::{arguments, program, status};
pub use top::run;
