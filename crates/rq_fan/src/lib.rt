//! Independent jobs at once, by `join` on halves of their list.
//!
//! The one contract: `run_jobs` gives one answer per job, in the order of the jobs, and each stands in the
//! relation that the jobs' type states for its `work`, whatever the order in which the jobs end. Where that relation
//! admits one answer, it is the one that a single thread would give; elsewhere that is tested, by runs without a second
//! thread. Each half of the list belongs to one side of a `join`: nothing is shared, and nothing is locked. That two
//! jobs run at once is said by no clause; a test of `edge_tests` shows it, through jobs that wait for each other.
//!
//! It stands on `frac_core` for `OutOfMemory` alone.
//!
//! `rank_inversion` states and runs its jobs so:
//! ```text
//! impl<'a> Work for StartJob<'a, Frac128> {
//!     type Answer = StartedAt<'a, Frac128>;
//!
//!     ghost answers = { λ job answer. IsStartedAt value job.0 job.1 answer };
//!
//!     fn work(self) -> StartedAt<'a, Frac128> {
//!         self.ranked.start(self.alloc, self.tau)
//!     }
//! }
//!
//! let answers = run_jobs(rt, alloc, jobs)?;
//! ```
#![tactic(auto)]

mod gate;
mod halves;
mod work;

pub use gate::{Gate, Open};
pub use halves::run_jobs;
pub use work::Work;
