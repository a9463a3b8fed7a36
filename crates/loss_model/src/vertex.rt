//! Bases and the vertices that they make.
use frac_core::List;
use ratio::Ratio;

/// As many rows as there are columns, with independent entries, which are fitted exactly.
#[derive(Drop)]
pub struct Basis {
    pub rows: List<u32>,
}

/// Where a row lies: above the fit, below it, or fitted exactly.
#[derive(Clone, Copy, Debug, PartialEq, Eq)]
pub enum Side {
    Up,
    Down,
    Basic,
}

/// A basis in ascending order, the side of every row, which is `Basic` at exactly the rows of the
/// basis, and the coefficients.
#[derive(Drop)]
pub struct Vertex {
    pub basis: Basis,
    pub sides: List<Side>,
    pub coef: List<Ratio>,
}
