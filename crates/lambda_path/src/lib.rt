//! The path in lambda at one quantile: the check loss plus lambda times the sum of the absolute coefficients, for every
//! lambda of a range (the lasso penalty of Koenker 2005, section 4.9).
//!
//! The one contract: `path_problem` gives a problem whose parameter is lambda, as `specs/Paths.antt` defines it, so that
//! a process over lambda walks along the path; or the first fault by `specs/Faults.antt`. What such a problem loses, that
//! it has full rank and lawful costs, and that the sum of the absolute coefficients never rises along the path are the
//! laws of `laws`. The crate stands on `tv_penalty`, whose penalty rows it takes, on `loss_model`, whose problem it gives,
//! and on `pivot_model` for what lawful costs are.
//! Its cases stand in `cases`.
//!
//! `rq_engine` calls it so:
//! ```text
//! let problem = match path_problem(alloc, &input.problem, first, job.tau) {
//!     Ok(problem) => problem,
//!     Err(fault) => return Err(path_halt(alloc, fault)),
//! };
//! ```
#![tactic(auto)]

mod costs;
mod fault;
pub mod laws;
mod path;

pub use fault::PathFault;
pub use path::path_problem;
