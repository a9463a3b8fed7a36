//! Why an arithmetic has no value.
use frac_core::{Frac128, Op};

/// Why an arithmetic has no value.
#[derive(Clone, Copy, Debug, PartialEq, Eq)]
pub enum ArithFault {
    /// No memory was found.
    OutOfMemory,
    /// The operation with this number, counted from 1, is the first that overflows.
    Overflow { term: u32, op: Op<Frac128> },
}
