//! The process over a range of quantiles: from the optimal basis at its low end, breakpoint by
//! breakpoint, to its high end (Koenker and d'Orey 1987, AS 229).
//!
//! The one contract for the layers above: `process` gives closed segments that cover the range, each
//! optimal at both of its ends, and the lawful trail that leads through their bases; where it stops
//! without them, it says what it had to stop for. It stands on the two loops of `tableau`, and on the laws
//! of `walk_model`.
//! Its cases stand in `cases`, and its tests in `solver_tests`.
//!
//! `rq_engine` calls it so:
//! ```text
//! let walked = match process(alloc, &input.problem, job.lo, job.hi, job.limit) {
//!     Ok(walked) => walked,
//!     Err(stop) => return Err(stop_halt(Place::Process, stop)),
//! };
//! ```
#![tactic(auto)]

mod range;

pub use range::process;
