//! One job, from the bytes of its input to its report.
//!
//! The one contract: `answer` gives the report that is right for the job and the bytes, or a halt
//! with its cause, as `specs/Answers.antt` defines both. Each job has a module of its own, which reads the input of the job and
//! computes what its report is made of; four of them go on with the fit of an input (`fit`), and all that walk name the halts of the
//! solver alike (`halt`).
//!
//! It stands on `rq_input` for what the bytes say, on `tau_process` for segments and trails, on `rankscores`, `predict_steps`,
//! `nested_test` and `lambda_path` for what a job asks besides, on `rank_inversion` for rank intervals, on `table_maker`
//! for generated tables, on `cert_text` and `cert_checker` for certificates, and on `report_text` for the types
//! that it answers with.
//! Its tests are those of whole runs, in the crates `edge_tests` and `cases`.
//!
//! `rq_cli` calls it so:
//! ```text
//! let report = match answer(rt, alloc, job, bytes, gate) {
//!     Ok(report) => report,
//!     Err(halt) => return Err(halt),
//! };
//! ```
#![tactic(auto)]

mod certify;
mod check;
mod digits;
mod fit;
mod halt;
mod job;
mod lowest;
mod path;
mod predict;
mod process;
mod ranks;
mod sample;
mod test;

pub use job::answer;
