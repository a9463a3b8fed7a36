//! The Gram matrix of the weighted columns of a problem: the normal equations of weighted least squares.
//!
//! The one contract: `gram_problem` gives a problem whose rows are those of the matrix, so that a greedy start of it
//! inverts the matrix, and `scaled_column` one column of weighted entries; or either names the operation that overflowed,
//! as `specs/Grams.antt` has them. The crate stands on `loss_model` for problems, on `rank_model` for what the matrix is, and
//! on `basis_inverse` for the entries of lists of lists.
//! Its cases stand in `cases`.
//!
//! `rank_inversion` calls it so:
//! ```text
//! let gram = match gram_problem(alloc, problem) {
//!     Ok(gram) => gram,
//!     Err(short) => return Err(early_stop(alloc, problem, short)),
//! };
//! ```
#![tactic(auto)]

mod columns;
mod matrix;

pub use columns::scaled_column;
pub use matrix::gram_problem;
