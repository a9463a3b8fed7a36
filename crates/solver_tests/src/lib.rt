//! Tests of the solver: inverses of bases (`basis_inverse`), the order of ties (`lex_rule`), solves and walks over a range
//! (`br_pivot`, `tau_process`) in both bodies, and rank intervals.
//!
//! Drawn problems are compared with a plain computation that is no part of the program. Solves, walks and starts that are worked by
//! hand are cases of `cases`.
#![tactic(auto)]

#[cfg(test)]
mod bodies;
#[cfg(test)]
mod digest;
#[cfg(test)]
mod drawn_columns;
#[cfg(test)]
mod helpers;
#[cfg(test)]
mod intervals;
#[cfg(test)]
mod inverses;
#[cfg(test)]
mod least_loss;
#[cfg(test)]
mod near;
#[cfg(test)]
mod ties;
#[cfg(test)]
mod walks;
