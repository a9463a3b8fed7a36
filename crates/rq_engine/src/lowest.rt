//! That the numbers of a fit are in lowest terms, as every `Ratio` is.
ghost use Rattle.std.specs.Prelude.{All};
ghost use Rattle.ratio.specs.Lowest.{IsLowest};
ghost use Rattle.cert_text.specs.Numbers.{BoundHas, SegmentHas};
ghost use Rattle.rq_engine.specs.Lowest.{IsLowestInterval, IsLowestPair};

use frac_core::List;
use loss_model::{Bound, Interval, Segment};
use rankscores::ScorePair;
use ratio::{Ratio, all_lowest};

// The law of one segment.
fn lowest_segment(segment: &Segment)
    ensures { SegmentHas IsLowest segment.now }
{
    segment.lo.lowest();
    segment.hi.lowest();
    all_lowest(segment.vertex.coef.as_slice());
    all_lowest(segment.basic_lo.as_slice());
    all_lowest(segment.basic_hi.as_slice());
    segment.loss_lo.lowest();
    segment.loss_hi.lowest();
}

/// The law of all segments.
pub(crate) fn all_lowest_segments(segments: &[Segment])
    ensures { All (SegmentHas IsLowest) segments.now }
{
    for segment in segments {
        lowest_segment(segment);
    }
}

// The law of the scores of a row.
fn lowest_pair(pair: &ScorePair)
    ensures { IsLowestPair pair.now }
{
    pair.at_lo.lowest();
    pair.at_hi.lowest();
}

// The law of the scores of a segment.
fn lowest_pairs(pairs: &[ScorePair])
    ensures { All IsLowestPair pairs.now }
{
    for pair in pairs {
        lowest_pair(pair);
    }
}

/// The law of the scores of all segments.
pub(crate) fn all_lowest_scores(scores: &[List<ScorePair>])
    ensures { All (All IsLowestPair) scores.now }
{
    for pairs in scores {
        lowest_pairs(pairs.as_slice());
    }
}

// The law of an end.
fn lowest_bound(bound: &Bound<Ratio>)
    ensures { BoundHas IsLowest bound.now }
{
    match bound {
        Bound::Finite(value) => value.lowest(),
        Bound::Infinite => {}
    }
}

// The law of an interval.
fn lowest_interval(interval: &Interval)
    ensures { IsLowestInterval interval.now }
{
    interval.tau.lowest();
    lowest_bound(&interval.low.bound);
    lowest_bound(&interval.high.bound);
}

/// The law of all intervals.
pub(crate) fn all_lowest_intervals(intervals: &[Interval])
    ensures { All IsLowestInterval intervals.now }
{
    for interval in intervals {
        lowest_interval(interval);
    }
}
