//! The two ways out of a basis.

/// The way in which the residual of the row that leaves a basis moves away from 0.
#[derive(Clone, Copy, Debug, PartialEq, Eq)]
pub enum Direction {
    Upward,
    Downward,
}
