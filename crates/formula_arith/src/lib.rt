//! The value of an arithmetic, such as that of `I(2*x - z)` in a formula.
//!
//! ```text
//! arith = [ "+" | "-" ] aprod { ( "+" | "-" ) aprod }
//! aprod = apow { "*" apow }
//! apow  = aatom [ "^" DIGITS ]
//! aatom = NAME | NUMBER | "(" arith ")"
//! ```
//!
//! An `Arith` has the text of an arithmetic, its distinct names, and its code: steps in postfix
//! order over a stack of fractions. A leading `-` negates the first product, and `A^k` multiplies
//! k factors from the left. Its value is by cases on the grammar, in ℚ.
//!
//! The crate's one contract: `evaluate` gives that value, or the first operation that overflows,
//! with its number and its operands.
//!
//! One loop over the code keeps a stack of its own: no call is nested more deeply for a deeper or
//! longer arithmetic. It stands on `frac_core`. Its cases stand in `cases`.
//!
//! `design_matrix` calls it so:
//! ```text
//! match numbers_in(alloc, frame, arith.names.as_slice(), index) {
//!     Ok(numbers) => evaluate(alloc, arith, &numbers),
//!     Err(_) => Err(ArithFault::OutOfMemory),
//! }
//! ```
#![tactic(auto)]

mod count;
mod evaluation;
mod fault;
mod operands;
mod operations;

pub use count::is_short;
pub use evaluation::evaluate;
pub use fault::ArithFault;
