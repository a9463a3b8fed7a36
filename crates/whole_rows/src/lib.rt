//! A problem in whole numbers: each column, the responses and the costs times factors of their own; its greedy start; and what
//! its numbers come to in fractions.
//!
//! The one contract for the layers above: each call gives what the definitions in ℚ have, or refuses. How a factor is found
//! doesn't matter: an entry is divided out and multiplied back, and where it isn't whole or doesn't fit into 64 bits,
//! `whole_problem` refuses. `whole_start` gives the rows of the greedy basis and the inverse of their entries; where the columns
//! are dependent it refuses too: the fractions tell that, with the combination. A law leads from there to the greedy basis of
//! the problem itself, and `greedy_start` to its inverse in fractions: it has the contract of the start of `basis_inverse`, which it
//! falls back on. Numerators over a denominator, times or over the factors, are read as fractions where they fit.
//! What factors change at a basis is a law too: nothing that a step reads but factors.
//!
//! `whole_tableau` calls it so, and `rank_inversion` has the inverse in fractions:
//! ```text
//! let wholes = whole_problem(alloc, problem)?;
//! let limit = limit_of(wholes.rows.as_slice());
//! let start = whole_start(alloc, rows, problem.columns, setting.limit)?;
//! let response: F = value_over(wholes.response.over, wholes.response.under)?;
//!
//! match greedy_start(alloc, &gram) {
//!     Ok(started) => Ok(GramInverse { inverse: started.inverse, basis: started.basis }),
//!     Err(stop) => Err(gram_stop(alloc, problem, &gram, stop)),
//! }
//! ```
#![tactic(auto)]

mod factor;
mod fractions;
mod inverse;
mod limit;
mod rows;
mod start;
mod values;

pub use factor::Factor;
pub use fractions::greedy_start;
pub use inverse::fraction_inverse;
pub use limit::limit_of;
pub use rows::{WholeProblem, WholeRow, whole_problem};
pub use start::{WholeStart, whole_start};
pub use values::{divided, scaled, value_over, values_over, values_under};
