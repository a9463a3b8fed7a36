//! The line along which a position leaves, and the rows that move on it.
use crate::fractions::FractionTableau;
use frac_core::Exact;
use pivot_model::Direction;

/// The line along which the row at a position leaves the basis at a quantile: the residuals of all rows
/// where it begins, and the direction.
#[derive(Drop)]
pub struct Line<'a, F: Exact> {
    pub tableau: &'a FractionTableau<'a, F>,
    pub residuals: &'a [F],
    pub theta: F,
    pub position: u32,
    pub direction: Direction,
}

/// A row whose residual moves towards 0: the first entry of its perturbed ratio, and the size of its
/// coordinate at the position.
#[derive(Clone, Copy)]
pub struct Mover<F> {
    pub row: u32,
    pub ratio: F,
    pub size: F,
}
