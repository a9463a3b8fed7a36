//! Generated tables: tables of whole numbers below 1,000 that are made from one number, the same at each run.
//!
//! The one contract: `make` gives the bytes of `specs/Tables.antt`, whose cells are those of a linear
//! congruential generator. It stands on `frac_core` for want of memory and the limit of records.
//! Its cases stand in `cases`.
//!
//! `rq_engine` calls it so:
//! ```text
//! let table = match make(alloc, job.number, job.rows, job.columns) {
//!     Ok(table) => table,
//!     Err(_) => return Err(Halt::OutOfMemory),
//! };
//! ```
#![tactic(auto)]

mod generator;
mod table;

pub use table::make;
