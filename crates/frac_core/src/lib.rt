//! Exact fractions of bounded size, and the lists and texts that every layer above hands on.
//!
//! `Exact` is the trait of such fractions: each operation gives the exact value, or hands back
//! the operation exactly where a number that it needs is out of range. `Frac128` and `Frac64`
//! implement it, and `widen` and `narrow` lead from one to the other. `read_number` and
//! `number_text` read and write their texts, for every type that implements it. `Arith` holds the
//! arithmetic of a formula, which layers above read and evaluate. The crate stands on `rational_laws`, whose field ℚ its clauses speak of, and on
//! `itoa` for the digits of whole numbers.
//! Its cases stand in `cases`.
//!
//! `loss_model` adds so, and `rq_words` reads a number so:
//! ```text
//! match left.try_add(right) {
//!     Ok(sum) => Ok(sum),
//!     Err(op) => Err(spill_at(site, op)),
//! }
//!
//! read_number(text).ok()
//! ```
#![tactic(auto)]

mod arith;
mod bounded;
mod digits;
mod divisor;
mod exact;
mod frac128;
mod frac64;
mod limits;
mod list;
mod number_laws;
mod number_reader;
mod number_writer;
mod parts;
mod text;
mod widths;

pub use arith::{Arith, ArithOp};
pub use exact::{Exact, Op, OpKind};
pub use frac64::Frac64;
pub use frac128::Frac128;
pub use limits::{MOST_COLUMNS, MOST_ROWS};
pub use list::List;
pub use number_laws::number_text_laws;
pub use number_reader::{NumberFault, read_number};
pub use number_writer::number_text;
pub use text::Text;
pub use widths::{narrow, widen};

/// No memory was found.
#[derive(Clone, Copy, Debug, PartialEq, Eq)]
pub struct OutOfMemory;
