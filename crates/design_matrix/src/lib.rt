//! Designs: the rows of a regression from a table, a formula and weights.
//!
//! The columns that are used are the response, the weights, those of the formula's variables, where an
//! arithmetic has those of its names, and those of its offsets and of its smooths. A record is kept where none of their cells is missing and its weight isn't
//! 0, and gives a row; without weights each weight is 1. A variable is a factor where its column is,
//! or where `factor` was written; its levels are the distinct cells of the kept records, by bytes, or
//! by value in a column of numbers. An arithmetic is numeric, and its value in a record is by
//! `specs/Computed.antt`; the values of the offsets are taken off the response in turn.
//!
//! A factor is coded by contrasts where the model has the columns that those of its levels add up
//! to, and else by an indicator for each level. These are: for a factor that is a whole term the
//! intercept, or the columns of an earlier term that is a factor; in a longer term the columns of
//! the term without it. So a model without an intercept has indicators for its first factor. R asks
//! of a longer term whether it contains an earlier one instead.
//!
//! The columns are `(Intercept)` where it is there, and then those of each term: one for each choice
//! of a column of each of its variables, those of the first variable varying fastest. Their entries
//! are products from the left, and their names are joined by `:`.
//!
//! What is proved: `build` gives the design that `specs/Designs.antt` defines, of the
//! records that `specs/Cells.antt` keeps, with the coding rule of `specs/CodedVariable.antt` and the columns
//! of `specs/Parts.antt`, or the first fault by `specs/Faults.antt`. That levels are the distinct
//! cells in ascending order is a law, in `laws`. `predicted_records` gives the records whose response alone
//! is missing, and `predict_row` the row of one by the levels of the kept records, or why it has none, as
//! `specs/Predicted.antt` defines them.
//!
//! It stands on `data_frame` for tables, on `formula_parser` for formulas, on `contrasts` for
//! codings, and on `loss_model` for the place of an operation that overflows.
//! Its cases stand in `cases`.
//!
//! `rq_input` calls it so:
//! ```text
//! let design = match build(alloc, frame, model, job.coding, weights_of(job)) {
//!     Ok(design) => design,
//!     Err(fault) => return Err(design_halt(fault)),
//! };
//!
//! let records = match predicted_records(alloc, self.frame, self.model, self.design) {
//!     Ok(records) => records,
//!     Err(_) => return Err(Halt::OutOfMemory),
//! };
//! predict_row(alloc, self.frame, self.model, self.coding, self.design, *rec)
//! ```
#![tactic(auto)]

mod builder;
mod cells;
mod checks;
mod coded;
mod computed;
mod design;
mod fault;
mod kept;
pub mod laws;
mod levels;
mod part;
mod parts;
mod predicted;
mod predicted_row;
mod rows;
mod used;
mod weights;

pub use builder::build;
pub use design::{Design, DesignRow, PredictRow};
pub use fault::DesignFault;
pub use predicted::predicted_records;
pub use predicted_row::predict_row;
