//! The problem of a design: its rows with their costs, and then the penalty rows.
//!
//! The one contract: `problem` gives the rows and costs in their order, as `specs/Programs.antt`
//! writes them, or refuses for their number. A law of `laws` says what such a problem loses. It stands on `design_matrix` and `tv_penalty`, whose
//! rows it takes, and on `loss_model`, whose problem it gives.
//!
//! `rq_input` calls it so:
//! ```text
//! match problem(alloc, &design, &smoothing) {
//!     Ok(problem) => Ok(Input { design, smoothing, problem }),
//!     Err(fault) => Err(program_halt(fault)),
//! }
//! ```
#![tactic(auto)]

mod fault;
pub mod laws;
mod program;

pub use fault::ProgramFault;
pub use program::problem;
