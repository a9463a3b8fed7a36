//! What stands at a basis, in whole numbers over its determinant.
//!
//! The one contract for the layers above: `WholeBasis::solution` gives the coefficients, the sides of all rows and the rows near
//! the fit, and the two parts of the basic dual values, as they are defined in ℚ for the problem in whole numbers, or refuses;
//! `solution_after` does so from what stood at another basis, of which it takes what rows weigh that keep their sides. Past a
//! joint of a walk, which says that all rows but two keep their sides, it makes those of these alone, and else those of all rows. A walk
//! chooses rows near the fit anew where a residual can have moved too far for the earlier ones, and a solve where its step passed few rows.
//! `residual_at` and `all_residuals` give the residuals that a caller needs, which are kept where they were made at this basis. Each number
//! is a sum of products that one bound makes safe, in 64 bits or in halves of 64 bits where that allows, or is multiplied out in 256 bits.
//! It stands on `whole_rows` for the problem, and on `whole_inverse` for the inverse of the basis.
//!
//! `whole_tableau` calls it so, at the start and after an exchange:
//! ```text
//! match held.solution(alloc) {
//!     Ok(solution) => Ok(WholeTableau::at(alloc, problem, setting, start, solution)),
//!     Err(obstacle) => {
//!         drop(start);
//!         Err(obstacle)
//!     }
//! }
//!
//! let solution = after.solution_after(self.alloc(), self.solution(), joint)?;
//! ```
#![tactic(auto)]

mod basis;
mod bounds;
mod column;
mod duals;
mod halves;
mod near;
mod position;
mod primal;
mod products;
mod ranges;
mod sides;
mod signs;
mod solution;
mod totals;

pub use basis::WholeBasis;
pub use column::Column;
pub use duals::negation;
pub use near::Near;
pub use primal::residual_of;
pub use products::row_products;
pub use ranges::Ranges;
pub use solution::{Joint, Sided, Turned, WholeSolution};
pub use totals::{Totals, Turn, Weights};
