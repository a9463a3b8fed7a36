//! What is left to do at a basis of rows in whole numbers: where the next breakpoint is, which position leaves at a quantile, and
//! which row enters where one leaves.
//!
//! The one contract for the layers above: a `Station` is a basis with all that stands there, and its calls give, as they are
//! defined in ℚ for the problem in whole numbers, the first crossing of a walk over quantiles and the row that enters
//! there, or refuse; `solving_step` gives the position that leaves at a quantile and the row that takes its place, or that no
//! slope is negative, or refuses. On a `FullLine` `first_mover` gives the first of the rows that move, by perturbed ratio, where
//! a caller has the numbers of all rows.
//!
//! Slopes are two numerators over the determinant, at a quantile one over the determinant and the quantile's second part.
//! Crossings and ratios are compared by cross products, and where two ratios agree, by all their entries, with the order of
//! `lex_rule`; nothing is reduced. In a walk the row that enters is looked for among the rows near the fit; the residuals of all
//! rows and their coordinates at the position are made only where those don't tell it. In a solve a sample of the rows tells one that
//! likely comes later, so that its rivals alone are looked at, which may come before it. The row is found among these by halving those
//! that are left (Hoare 1961), by the leading bits of their ratios, and in full among all rows where these don't lead to it; nothing is
//! promised of either: the row is then tested in one pass over the rivals, and that test is the whole proof.
//!
//! It stands on `whole_solution` for what stands at the basis, and on `tableau_model` for the laws of a first crossing.
//!
//! `whole_tableau` calls it so:
//! ```text
//! let station = Station { basis: &held, solution };
//! match station.first_crossing(self.problem().columns) {
//!     Ok(None) => Ok(None),
//!     Ok(Some(next)) => self.step_at(&station, next, hi),
//!     Err(obstacle) => Err(obstacle),
//! }
//!
//! let quantile = Quantile::<i128>::of(theta)?;
//! let step = solving_step(self.alloc(), &station, quantile, columns)?;
//! ```
#![tactic(auto)]

mod bound;
mod crossings;
mod entering;
mod full_line;
mod guess;
mod leaving;
mod less;
mod line;
mod near_line;
mod order;
mod passing;
mod quantile;
mod rivals;
mod sights;
mod slopes;
mod solving;
mod station;
mod tie;

pub use crossings::{Quotient, fraction_of, sooner};
pub use entering::RowNumbers;
pub use full_line::FullLine;
pub use line::{Line, Mover};
pub use quantile::Quantile;
pub use solving::solving_step;
pub use station::Station;
