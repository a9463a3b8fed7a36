//! Tables of fields between commas.
//!
//! `read_table` reads bytes into a `Frame` of named columns. The records are those that `csv`
//! defines, with double quotes and no trimming: a byte order mark at the start is taken off; a line
//! feed, a carriage return or both end a record; blank lines vanish; and a quote that is still open
//! ends with the bytes. The first record is the header, and those under it are counted from 1.
//!
//! Faults are found in this order, and the first is the answer:
//! 1. `NoHeader`, where there is no record.
//! 2. In the header `NotUtf8` with record 0; `TooManyColumns` past 1,024 fields; and then, from left
//!    to right, `EmptyName`, and `DoubleName` where the name stands further left too. An empty name
//!    in the first of at least two columns is no fault: the column holds row names, as R's
//!    `write.csv` makes them, and is set aside.
//! 3. In each later record in turn `TooManyRows`, where it is record 16,385; `NotUtf8`; and `Ragged`,
//!    where its number of fields isn't the header's.
//!
//! Spaces and tabs at the ends of a cell don't count for what follows. A cell is missing where
//! nothing or `NA` is left of it. A column is numeric where what is left of each other cell is a
//! number text of `frac_core::read_number`, too wide or not; where one is too wide, the column tells
//! the first such record alone. Any other column is a factor, whose cells are kept as they stand.
//!
//! The crate's one contract: the answer is the table of the bytes, or their first fault, as
//! `specs/Tables.antt` defines both; and bytes are read exactly where their records are a table by
//! `specs/WellFormed.antt`.
//!
//! It stands on `csv` for the records, on `indexmap` for the places of names, and on `frac_core`
//! for numbers and texts.
//! Its cases stand in `cases`.
//!
//! `rq_input` calls it so:
//! ```text
//! match read_table(alloc, bytes) {
//!     Ok(frame) => table_input(alloc, job, ranked, &frame),
//!     Err(fault) => Err(table_halt(fault)),
//! }
//! ```
#![tactic(auto)]

mod cell;
mod column;
mod fault;
mod frame;
mod header;
mod records;
mod rows;

pub use column::Column;
pub use fault::TableFault;
pub use frame::{Frame, read_table};
