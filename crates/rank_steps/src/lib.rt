//! What is left to do at a basis of rows in whole numbers on a walk of a tested value: where the next breakpoint is.
//!
//! The one contract for the layers above: `first_crossing` gives the first crossing of all positions, as it is defined in ℚ for
//! the problem in whole numbers, or refuses. What a dual value misses to its bound is a number over the determinant and the
//! quantile's second part, and its speed is a numerator of the inverse, so a crossing is a quotient of two whole numbers from
//! which the determinant has gone; crossings are compared by cross products. `entering_row` asks the rows near the
//! fit first. It stands on `whole_steps` for what stands at the basis, and on `rank_walk_model` for the walks.
//!
//! `rank_tableau` calls both so:
//! ```text
//! match first_crossing(&station, whole, tableau.problem().columns) {
//!     Ok(Some(next)) => { at_crossing(tableau, &station, course, reach, factor, next, from) }
//!     Ok(None) => Err(Obstacle::TooWide),
//!     Err(obstacle) => Err(obstacle),
//! }
//! match entering_row::<F>(station, tableau.alloc(), next.position, next.direction) {
//! ```
#![tactic(auto)]

mod crossings;
mod entering;
mod levels;
mod way;

pub use crossings::{WholeCourse, first_crossing};
pub use entering::entering_row;
pub use way::{Way, direction_of};
