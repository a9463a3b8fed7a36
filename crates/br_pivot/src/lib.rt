//! Pivots at one quantile: from the greedy start to an optimal vertex, by the line search of
//! Barrodale and Roberts (1973).
//!
//! The one contract for the layers above: `solve_at` gives coefficients that minimise, with dual
//! values that show it, and the lawful trail that led there; where it stops without them, it says
//! what it had to stop for. `reach_in_wholes` gives the basis as whole numbers keep it, for walks that
//! go on from there. The crate stands on `pivot_model` for the definitions and their laws, and on the loop
//! of `tableau` for the pivots.
//! Its cases stand in `cases`, and its tests in `solver_tests`.
//!
//! `rank_inversion` calls it so:
//! ```text
//! let solved = match solve_at(alloc, problem, asked.tau, limit) {
//!     Ok(solved) => solved,
//!     Err(stop) => {
//!         drop(test);
//!         return Err(stop);
//!     }
//! };
//! ```
#![tactic(auto)]

mod reached;
mod solve;

pub use reached::{Reached, reach_in_wholes};
pub use solve::{Solved, solve_at};
