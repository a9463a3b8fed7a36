//! Steps of a function of the quantile.
use ratio::Ratio;

/// From `lo` to `hi` the function has this value.
#[derive(Drop)]
pub struct Step {
    pub lo: Ratio,
    pub hi: Ratio,
    pub value: Ratio,
}
