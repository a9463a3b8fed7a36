//! How many pivots a problem can take: every step of a lawful trail improves a list, so no basis comes
//! twice in one part of it, and there are as many bases as rows choose columns at most.
//!
//! The crate has no code. The one contract for the layers above is its laws: no trail of a solve reaches a
//! limit of one less than the bases, none of a process twice that, and none of an interval three times that.
//! It stands on the trails and laws of `pivot_model` and `walk_model`.
#![tactic(auto)]

pub mod laws;
