//! The pivot rule at one quantile: which row leaves a basis and which row takes its place, what a
//! lawful trail of such pivots is, and what comes out of it.
//!
//! The crate has the definitions, of which the code is above it, and the one contract for the layers
//! above is their laws: a basis without a negative slope has dual values of equal cost, some row
//! always enters, and the trail of a problem and the vertex of a basis are determined. It stands on the
//! perturbed residuals and ratios of `basis_model` and on the problem of `loss_model`.
#![tactic(auto)]

mod direction;
pub mod laws;

pub use direction::Direction;
