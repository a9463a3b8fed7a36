//! A basis, and all that stands at it.
use crate::fractions::FractionTableau;
use basic_solution::BasicSolution;
use frac_core::Exact;

/// A basis with its basic solution.
#[derive(Drop)]
pub struct BasisView<'a, F: Exact> {
    pub tableau: &'a FractionTableau<'a, F>,
    pub solution: &'a BasicSolution<F>,
}
