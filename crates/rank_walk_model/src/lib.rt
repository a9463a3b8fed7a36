//! The two walks of a rank interval, by bases: what each step keeps, and what is at an end (Koenker 2005,
//! section 3.5).
//!
//! The crate has definitions and laws, and no code. The one contract for the layers above is the laws: an
//! interval whose trail is lawful, and whose ends are those of its walks, bounds exactly the values that
//! hold, and meets the conditions of a certificate. It stands on the ends and the test of `rank_model` and on
//! the walks of a tested value of `walk_model`.
#![tactic(auto)]

pub mod laws;
