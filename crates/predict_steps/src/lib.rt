//! Predictions as step functions of the quantile, and their rearrangement (Chernozhukov, Fernández-Val
//! and Galichon 2010).
//!
//! The one contract: `steps` gives a record's prediction along each segment of a process, and `rearrange`
//! the same steps in the order of their values, as `specs/Rearranged.antt` defines it. Their numbers are of any size, in lowest
//! terms by the law `all_lowest_steps`. The laws say that steps have one rearrangement. It stands on `loss_model`, whose processes are
//! predicted from, and on `ratio`.
//! Its cases stand in `cases`.
//!
//! `rq_engine` calls it so:
//! ```text
//! let steps = steps(alloc, process, row.x.as_slice(), row.offsets.as_slice())?;
//! let rearranged = rearrange(alloc, steps.as_slice())?;
//! ```
#![tactic(auto)]

pub mod laws;
mod lowest;
mod prediction;
mod rearrangement;
mod step;

pub use lowest::all_lowest_steps;
pub use prediction::steps;
pub use rearrangement::rearrange;
pub use step::Step;
