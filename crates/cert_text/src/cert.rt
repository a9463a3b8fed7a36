//! The type of a certificate.

ghost use Rattle.std.specs.Prelude.{All};
ghost use Rattle.std.proofs.Props.{props};
ghost use Rattle.cert_text.specs.Kept.{IsKeptSegment, IsKeptInterval};

use frac_core::{Frac128, List};
use loss_model::{IntervalProof, Problem, Segment};

/// A problem, a range of the quantile, and what is claimed of them: segments that cover the range, each
/// with a vertex that is optimal there, and rank intervals with what shows them.
///
/// Nothing else is known of a certificate: its problem may have no column, and its lengths may disagree.
/// But the basis of each segment and of each end lists its basic rows, and an end is finite exactly where
/// dual values lie beyond it.
#[derive(Drop)]
pub struct Cert {
    pub problem: Problem<Frac128>,
    pub lo: Frac128,
    pub hi: Frac128,
    pub segments: List<Segment>,
    pub intervals: List<IntervalProof>,
    pub ghost listed: { All IsKeptSegment segments } by { Prim.hlevel props },
    pub ghost ended: { All IsKeptInterval intervals } by { Prim.hlevel props },
}
