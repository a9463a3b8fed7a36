//! The regression quantile process: segments of the quantile, and the pivots that lead to them.
use crate::vertex::Vertex;
use frac_core::List;
use ratio::Ratio;

/// A vertex that is optimal from `lo` to `hi`, the dual values of its basic rows at both ends, by
/// ascending row, and the loss there.
#[derive(Drop)]
pub struct Segment {
    pub lo: Ratio,
    pub hi: Ratio,
    pub vertex: Vertex,
    pub basic_lo: List<Ratio>,
    pub basic_hi: List<Ratio>,
    pub loss_lo: Ratio,
    pub loss_hi: Ratio,
}

/// A pivot: at the parameter `theta` the row enters the basis at the position, and takes the place
/// of the row that leaves.
#[derive(Drop)]
pub struct Exchange {
    pub theta: Ratio,
    pub position: u32,
    pub row: u32,
}

/// How a basis was reached: the rows of the greedy start by position, the pivots from it, and the
/// pivots along a rank interval's two sides, of which a process has none.
///
/// `None` stands only in a trail that stopped inside the start, at a position that still holds its
/// unit row.
#[derive(Drop)]
pub struct Trail {
    pub start: List<Option<u32>>,
    pub steps: List<Exchange>,
    pub rise: List<Exchange>,
    pub fall: List<Exchange>,
}

/// The segments in ascending order, and how they were reached.
#[derive(Drop)]
pub struct Process {
    pub segments: List<Segment>,
    pub trail: Trail,
}
