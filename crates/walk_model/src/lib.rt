//! The rule of walks in ℚ: how a basis and its dual values change while a parameter rises, what a
//! lawful walk is, and what it leaves (Koenker and d'Orey 1987, AS 229; Koenker 2005, section 3.5).
//!
//! A walk over quantiles and the two walks of a tested value are instances of one definition. The
//! crate has definitions, of which the code is above it, and the one contract for the layers above is
//! their laws: between breakpoints a basis stays optimal, a step keeps every dual value, a walk over
//! quantiles never sticks, and there is one lawful trail. It stands on the steps and trails of
//! `pivot_model` and on the quantities of `basis_model`.
#![tactic(auto)]

pub mod laws;
