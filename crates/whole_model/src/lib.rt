//! The same regression in whole numbers, for a reader who would rather believe those: every value of a
//! problem times the product of all its denominators, so that its definitions can be read without ℚ.
//!
//! The crate has no code. Its one contract is the laws: losses, minima, dual values, full rank and the
//! tested values that hold among fractions are those among whole numbers, where dual values show a
//! minimum, and mix; and a record of a whole weight counts as so many records. It stands on the problem
//! and the laws of `loss_model`, on the test of `rank_model`, on `frac_core` and on `rational_laws`;
//! nothing stands on it.
#![tactic(auto)]

pub mod laws;
