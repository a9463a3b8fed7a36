//! The basic solution: what a pivot needs to know of a basis, computed from the inverse of its rows.
//!
//! The one contract for the layers above: the coefficients, the residuals, the sides and the parts of
//! the basic dual values are those of `basis_model`, and a spill names an operation of one of them
//! that overflows. All sums of products go through `loss_model`'s one function for them. It stands on
//! `basis_inverse` and `lex_rule`.
//!
//! Everything together costs O(rows * columns) operations on fractions and O(columns^2) more; all
//! coordinates of a row are looked at only where its residual is 0.
//! Its cases stand in `cases`.
//!
//! `fraction_tableau` calls it so:
//! ```text
//! basic_solution(self.alloc, self.problem, &self.inverse, &self.basis)
//! ```
#![tactic(auto)]

mod columns;
mod coordinates;
mod duals;
mod primal;
mod signs;
mod solution;
mod station;

pub use columns::totals;
pub use coordinates::{coordinates_at, row_coordinates};
pub use duals::{balancing_values, cost_sum, dual_value, slope_down, slope_up};
pub use primal::{coefficients, residuals};
pub use signs::sides;
pub use solution::{BasicSolution, basic_solution};
