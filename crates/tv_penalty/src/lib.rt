//! Smooths of a formula: piecewise linear functions of a column, whose changes of slope are
//! penalised by their total variation (Koenker, Ng and Portnoy 1994).
//!
//! The knots of a smooth are the distinct numbers of its column at the records of a design. The
//! function's values at the knots are the coefficients; beside an intercept its value at the first
//! knot is 0 and has no column. For each inner knot there is a penalty row: the change of slope
//! there. A lambda of 0 has no rows.
//!
//! The one contract: `knots`, `qss_columns` and `qss_rows` give the knots, the columns and the penalty
//! rows as `specs/Knots.antt` and `specs/Smoothings.antt` define them, or the first fault by
//! `specs/Faults.antt`; and `l1_rows` gives rows that penalise single coefficients. What the rows are
//! for is a law, in `laws`: the penalty of a coefficient vector is lambda times the total variation
//! of the slope of the function through the knots.
//!
//! It stands on `design_matrix` for designs and columns, on `data_frame` and `formula_parser` for
//! tables and smooths, and on `loss_model` for the place of an operation that overflows.
//!
//! `rq_input` asks for the rows of all smooths so, and `lambda_path` for one on each coefficient:
//! ```text
//! let smoothing = match qss_rows(alloc, frame, &design, model) {
//!     Ok(smoothing) => smoothing,
//!     Err(fault) => return Err(penalty_halt(fault)),
//! };
//!
//! match l1_rows(alloc, columns, first, Frac128::one()) {
//!     Ok(rows) => Ok(rows),
//!     Err(_) => Err(OutOfMemory),
//! }
//! ```
#![tactic(auto)]

mod assembly;
mod bends;
mod fault;
mod knot;
pub mod laws;
mod parts;
mod rows;

pub use assembly::{qss_columns, qss_rows};
pub use fault::PenaltyFault;
use frac_core::{Frac128, List, Text};
pub use knot::knots;
pub use rows::l1_rows;

/// A penalty: `lambda` times the absolute value of a combination of coefficients.
#[derive(Drop)]
pub struct PenaltyRow {
    /// The combination: an entry for each name of the smoothing.
    pub x: List<Frac128>,
    /// The weight of the penalty, which is above 0.
    pub lambda: Frac128,
}

/// What the smooths of a formula add to its design.
#[derive(Drop)]
pub struct Smoothing {
    /// What the columns are called.
    pub names: List<Text>,
    /// For each row of the design an entry for each name.
    pub columns: List<List<Frac128>>,
    pub rows: List<PenaltyRow>,
}
