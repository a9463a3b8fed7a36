//! The model of linear quantile regression: the types that the layers share, the definitions of
//! losses and dual values, and their laws.
//!
//! The one contract for the layers above: `loss_at` is the plain sum of the check loss, and dual
//! values of equal cost show that coefficients minimise it. The crate stands on exact fractions
//! (`frac_core`) and on the algebra below them (`rational_laws`).
//! Its cases stand in `cases`, and tests of widths in `edge_tests`.
//!
//! `basic_solution` takes residuals and sums so:
//! ```text
//! made.add(residual_at(problem, row, coef)?)?;
//! total = plus_product(site, total, inverse.entry(column, position), response)?;
//! ```
#![tactic(auto)]

mod interval;
pub mod laws;
mod loss;
mod narrowing;
mod numbers;
mod problem;
mod process;
mod sites;
mod spill;
mod stop;
mod vertex;

pub use interval::{Beyond, Bound, End, Interval, IntervalProof};
pub use loss::{down_cost_at, loss_at, residual_at, up_cost_at};
pub use narrowing::narrow_problem;
pub use numbers::widened;
pub use problem::{Problem, Row};
pub use process::{Exchange, Process, Segment, Trail};
pub use sites::{Sign, minus_at, over_at, plus_at, plus_product, sum_of_products, times_at};
pub use spill::{Quantity, Short, Site, Spill};
pub use stop::Stop;
pub use vertex::{Basis, Side, Vertex};
