//! What a walk of the tested value goes by.
use rank_steps::Way;

/// The walk of the tested value of a column at the quantile tau, as long as the square of what the column
/// weighs is within the bound.
#[derive(Clone, Copy)]
pub struct Course<F> {
    pub way: Way,
    pub column: u32,
    pub tau: F,
    pub bound: F,
}
