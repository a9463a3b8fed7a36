//! Every stop of the solver and of a rank interval was needed.
//!
//! The crate has no code. The one contract for the layers above is its laws over the contracts of `br_pivot`,
//! `tau_process` and `rank_inversion`: a limit stops a solve, a process or an interval only where it is less than the bases of its
//! parts, an overflow names an operation that overflows, and columns are called dependent only where they are. It stands on
//! these crates and on the laws of `pivot_laws`.
#![tactic(auto)]

pub mod laws;
