//! The rank test of nested models: are the coefficients of some columns 0 (Gutenbrunner, Jurečková, Koenker and Portnoy
//! 1993)?
//!
//! The one contract: `restricted` gives a problem without the tested columns, as `specs/Restricted.antt` has it; and `nested`
//! the scores of these columns and the statistic, as `specs/Nested.antt` defines them, as fractions of any size. Either is
//! refused only where no memory is found. The crate stands on `gram_inverse` for the inverse of the Gram matrix of the weighted
//! columns, and on `ratio`.
//! Its cases stand in `cases`.
//!
//! `rq_engine` calls it so, with the Wilcoxon scores of the process of the restricted problem between:
//! ```text
//! let problem = match restricted(alloc, full, job.tested.as_slice()) {
//!     Ok(problem) => problem,
//!     Err(OutOfMemory) => return Err(Halt::OutOfMemory),
//! };
//!
//! let found = match nested(alloc, full, tested, wilcoxon.as_slice()) {
//!     Ok(found) => found,
//!     Err(OutOfMemory) => return Err(Halt::OutOfMemory),
//! };
//! ```
#![tactic(auto)]

pub mod laws;
mod restriction;
mod scores;
mod statistic;

pub use restriction::restricted;
pub use statistic::{NestedStatistic, nested};
