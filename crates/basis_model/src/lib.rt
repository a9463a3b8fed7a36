//! The model of a basis: its coefficients, its residuals, the sides of the rows, and its dual values
//! (Koenker and d'Orey 1987, AS 229), with the operands of each operation by which they are computed;
//! the order by which ties of residuals are broken, in which every response is perturbed by an
//! infinitely small amount of its own and what was a number becomes a list (Charnes 1952); and the
//! lists that a trail of bases improves.
//!
//! The crate has the definitions of which the code is above it, the parts of a cost that they name,
//! and the laws of the order: perturbed residuals have a sign, and perturbed ratios are in a strict
//! order, total on rows that differ. These are the one contract for the layers above. They speak of
//! spans and sums over all rows, and never of a tableau. The crate stands on the problem of
//! `loss_model` and on `rational_laws`.
#![tactic(auto)]

pub mod laws;
mod part;

pub use part::Part;
