//! From the bytes of a job's input to its problem.
//!
//! The one contract: `read_input` gives the design of the table and the formula, what the smooths of
//! the formula add to it, and the problem that they make, as `specs/Inputs.antt` says, or the first
//! refusal. Every job that fits begins with it, a rank test by `read_tested`, which has its columns too
//! (`specs/Tested.antt`), but for two that take no smooths (`specs/Plain.antt`):
//! that of a path begins with `read_plain`, and that of predictions with `read_predictions`, which adds the rows of the
//! records that are predicted (`specs/Predictions.antt`). It stands on `data_frame`, `formula_parser`,
//! `design_matrix`, `tv_penalty` and `rq_program` for the steps, on `rq_words` for the job and on
//! `report_text` for the refusals, and on no solver. A law of `laws` says what the problem loses in
//! the subject's words.
//!
//! `rq_engine` calls it so:
//! ```text
//! match read_input(alloc, job, ranked, bytes) {
//!     Ok(input) => fit_input(rt, alloc, job, input, gate),
//!     Err(halt) => Err(halt),
//! }
//! ```
#![tactic(auto)]

mod halt;
mod input;
pub mod laws;
mod model;
mod plain;
mod predictions;
mod tested;

pub use input::{Input, read_input};
pub use plain::{PlainInput, read_plain};
pub use predictions::{PredictionInput, read_predictions};
pub use tested::read_tested;
