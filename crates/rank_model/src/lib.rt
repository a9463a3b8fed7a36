//! Rank intervals in ℚ: for which tested values of a coefficient the rank score statistic of the
//! restricted fit is within its critical value (Gutenbrunner, Jurečková, Koenker and Portnoy 1993;
//! Koenker 2005, section 3.5).
//!
//! The crate has definitions and laws, and no code. The one contract for the layers above is the laws: a
//! tested value holds exactly where it lies between the ends that the two walks leave, and an interval
//! that meets the conditions of a certificate shows which values hold. It stands on the problem, the dual
//! values and the types of an interval of `loss_model`, and names nothing of a solver or of a checker,
//! which may both stand on it.
#![tactic(auto)]

pub mod laws;
