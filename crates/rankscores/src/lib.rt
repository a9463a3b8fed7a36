//! Rankscores of a segment, and the Wilcoxon scores of a process (Gutenbrunner and Jurečková 1992).
//!
//! The one contract: `scores` gives the rankscores of the basic rows at both ends of a segment, as
//! `specs/Scores.antt` defines them; and `wilcoxon` gives the integral of each row's rankscore over 0 to 1, minus 1/2, as
//! `specs/Wilcoxon.antt` defines it. Both are fractions of any size. The laws say that scores are bounded, and that Wilcoxon
//! scores balance. It
//! stands on `loss_model`, whose dual values are scored, and on `ratio`.
//!
//! `rq_engine` calls it so:
//! ```text
//! let pairs = scores(alloc, problem, data_rows, segment)?;
//!
//! match wilcoxon(alloc, &problem, &process) {
//!     Ok(wilcoxon) => Ok(ScoredProcess { process, wilcoxon }),
//!     Err(OutOfMemory) => Err(Halt::OutOfMemory),
//! }
//! ```
#![tactic(auto)]

mod integral;
pub mod laws;
mod pair;
mod score;
mod segment;
mod unreduced;

pub use integral::wilcoxon;
pub use pair::ScorePair;
pub use segment::scores;
