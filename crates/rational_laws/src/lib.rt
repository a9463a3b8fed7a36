//! The laws of rational numbers: the ground that every definition and every proof stands on.
//!
//! The crate has no code. Its `specs/` define the field ℚ of fractions of whole numbers of any size with its order, finite sums
//! over it, and the linear algebra of a basis: a vector is a function of an index, a matrix one of a row and a column, and both
//! are read only below a size `n`. Its `proofs/` have their laws, what an exchange of one row does to two inverse matrices among
//! them, solvers that close identities of rings, and plain facts on signs, comparisons and lists. Each file of laws opens with a
//! page on how to use it. It stands on nothing but the standard library.
#![tactic(auto)]
