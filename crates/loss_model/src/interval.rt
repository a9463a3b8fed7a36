//! A rank interval of one coefficient, and what shows it.
use crate::process::Trail;
use crate::vertex::Vertex;
use frac_core::List;
use ratio::Ratio;

/// An end of an interval: a tested value, or none on this side.
#[derive(Drop)]
pub enum Bound<N> {
    Finite(N),
    Infinite,
}

/// What lies beyond an end: other dual values of the basic rows, whose statistic is beyond the bound; or
/// a direction of the coefficients, one number for each column, along which the dual values stay.
#[derive(Drop)]
pub enum Beyond {
    Outside(List<Ratio>),
    Ray(List<Ratio>),
}

/// An end, the vertex at which the walk ended, dual values of its basic rows by ascending row, whose
/// statistic is within the bound, and what lies beyond.
#[derive(Drop)]
pub struct End {
    pub bound: Bound<Ratio>,
    pub vertex: Vertex,
    pub inside: List<Ratio>,
    pub beyond: Beyond,
}

/// Both ends of the interval of one column, counted from 0, for a quantile and a critical value; and the
/// factors of the other columns that project it on them, 0 at the column itself.
#[derive(Drop)]
pub struct IntervalProof {
    pub column: u32,
    pub tau: Ratio,
    pub crit: Ratio,
    pub low: End,
    pub high: End,
    pub projection: List<Ratio>,
}

/// Both ends of the interval of one column, counted from 0, for a quantile and a critical value; the factors of its
/// projection, where each of them has a number of the type; and the trail of the fit and of both walks by which it
/// was found.
#[derive(Drop)]
pub struct Interval {
    pub column: u32,
    pub tau: Ratio,
    pub crit: Ratio,
    pub low: End,
    pub high: End,
    pub projection: Option<List<Ratio>>,
    pub trail: Trail,
}
