//! The signs of perturbed residuals and the order of perturbed ratios, by which ties are broken.
//!
//! The one contract for the layers above: `lex_sign` and `lex_less` are the sign and the order of
//! the lists that `basis_model` defines over all rows of a problem. The code looks only at entries
//! that can differ: the residual, those of the basis's rows in ascending order, and those of the rows
//! themselves. It takes no memory. It stands on `basis_model`, and on `loss_model` for the types.
//! Its tests stand in the crate `solver_tests`.
//!
//! `basic_solution` takes a sign so, and `fraction_tableau` breaks a tie so:
//! ```text
//! Ok(lex_sign(residual, coords.as_slice(), station.basis, row))
//!
//! match lex_less(&first, &second, line.tableau.basis(), line.position) {
//!     Ok(less) => Ok(less),
//!     Err(spill) => Err(Short::Overflow(spill)),
//! }
//! ```
#![tactic(auto)]

mod less;
mod quotient;
mod scan;
mod sign;

pub use less::{Ratio, lex_less};
pub use sign::lex_sign;
