//! Rank intervals of coefficients, by the inversion of a rank test (Koenker 2005, section 3.5; Gutenbrunner,
//! Jurečková, Koenker and Portnoy 1993).
//!
//! The one contract for the layers above: `interval` bounds exactly the tested values that hold, with the
//! lawful trail of the solve and of both walks, and what a certificate states of both ends; or it says what it
//! had to stop for. Its numbers are of any size. Whole numbers answer first, and where they refuse all is done again by
//! its parts, in fractions of limited size.
//! For intervals of many columns at a quantile there are `start_in_wholes`, once, and `interval_after`, for each.
//! `IntervalJob` is an interval as a job of `rq_fan`.
//!
//! `all_intervals` gives the rank intervals of a problem by jobs at once: a right interval for each that is asked, quantile by
//! quantile as given, and column by column within, or the first that stops, in the order in which they are asked and not in that in
//! which the jobs end. The problem is made whole once. Then the solves in
//! whole numbers are jobs, one for each quantile, and then the walks, one for each quantile and column, from the solve at the
//! quantile.
//!
//! The crate stands on `br_pivot` for the solve, on `rank_tableau`
//! for the walks in whole numbers and on the basis of `fraction_tableau` for those in fractions, on the laws of
//! `rank_walk_model`, and on `rq_fan` for its jobs.
//!
//! `rq_engine` calls it so:
//! ```text
//! let asks = RankAsks {
//!     crit: rank.crit,
//!     taus: rank.taus.as_slice(),
//!     limit: job.limit,
//! };
//! match all_intervals(rt, alloc, problem, &asks, gate) {
//!     Ok(intervals) => Ok(intervals),
//!     Err(stopped) => Err(interval_halt(stopped)),
//! }
//! ```
#![tactic(auto)]

mod asks;
mod column_test;
mod course;
mod ends;
mod gram;
mod intervals;
mod inversion;
mod job;
mod jobs;
mod look;
mod projection;
mod station;
mod trails;
mod until;
mod walking;
mod wholes;

pub use asks::{IntervalStop, RankAsks};
pub use br_pivot::{Solved, solve_at};
pub use column_test::{Asked, RankTest, rank_test};
pub use gram::{GramInverse, gram_inverse};
pub use intervals::all_intervals;
pub use inversion::{interval, interval_after, interval_by_parts, interval_in_wholes};
pub use job::IntervalJob;
pub use projection::{Projected, project};
pub use wholes::{Started, start_in_wholes};
