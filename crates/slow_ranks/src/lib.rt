//! Rank intervals by plain enumeration in whole numbers, slow and apart from the program: what tests compare with.
//!
//! Whether a tested value holds is found from all vertices of the dual polytope of the restricted problem, and
//! the ends of an interval from the least losses of the fits that keep the tested coefficient. Tables have up to
//! three columns and a few rows, and their numbers are small.
#![tactic(auto)]

mod draws;
mod duals;
mod losses;
mod tables;

pub use draws::{CRITICAL, Parts, QUANTILES, draw, draw_table};
pub use duals::Vertex;
pub use losses::{Bound, Ends, after, before};
pub use tables::{Data, RankTest, Ratio, Row, Whole, rank_test};
