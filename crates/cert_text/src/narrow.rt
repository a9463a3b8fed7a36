//! Whether all numbers of a certificate's segments and intervals have 127 bits. Each one is looked at, so that afterwards
//! each is known to be in lowest terms.

ghost use Rattle.std.specs.Prelude.{◌≡◌, ◌-◌, ◌^◌, ◌&&◌, All, nat_le};
ghost use Rattle.ratio.specs.Lowest.{IsLowest};
ghost use Rattle.cert_text.specs.Ratios.{is_narrow};
ghost use Rattle.cert_text.specs.Numbers.{AreLowest, BeyondHas, BoundHas, EndHas, IntervalHas, SegmentHas, are_narrow, beyond_is_narrow, bound_is_narrow, cert_is_narrow, end_is_narrow, interval_is_narrow, intervals_are_narrow, segment_is_narrow, segments_are_narrow};

use crate::cert::Cert;
use loss_model::{Beyond, Bound, End, IntervalProof, Segment};
use natural::Natural;
use ratio::Ratio;

fn is_short(n: &Natural) -> bool
    ensures { result ≡ nat_le n.now (2 ^ 127 - 1) }
{
    match n.narrow() {
        Some(n) => n <= i128::MAX as u128,
        None => false,
    }
}

fn is_narrow(x: &Ratio) -> bool
    ensures value { result ≡ is_narrow x.now }
    ensures lowest { IsLowest x.now }
{
    let (num, den) = x.lowest_terms();
    if !is_short(num.size()) {
        return false;
    }
    is_short(den)
}

fn are_narrow(numbers: &[Ratio]) -> bool
    ensures value { result ≡ are_narrow numbers.now }
    ensures lowest { All IsLowest numbers.now }
{
    let mut all = true;
    for number in numbers {
        let here = is_narrow(number);
        all = both(all, here);
    }
    all
}

fn both(first: bool, second: bool) -> bool
    ensures { result ≡ (first && second) }
{
    first && second
}

fn segment_is_narrow(s: &Segment) -> bool
    ensures value { result ≡ segment_is_narrow s.now }
    ensures lowest { SegmentHas IsLowest s.now }
{
    let lo = is_narrow(&s.lo);
    let hi = is_narrow(&s.hi);
    let coef = are_narrow(s.vertex.coef.as_slice());
    let basic_lo = are_narrow(s.basic_lo.as_slice());
    let basic_hi = are_narrow(s.basic_hi.as_slice());
    let loss_lo = is_narrow(&s.loss_lo);
    let loss_hi = is_narrow(&s.loss_hi);
    let losses = both(loss_lo, loss_hi);
    let duals = both(basic_lo, both(basic_hi, losses));
    both(lo, both(hi, both(coef, duals)))
}

fn segments_are_narrow(segments: &[Segment]) -> bool
    ensures value { result ≡ segments_are_narrow segments.now }
    ensures lowest { All (SegmentHas IsLowest) segments.now }
{
    let mut all = true;
    for segment in segments {
        let here = segment_is_narrow(segment);
        all = both(all, here);
    }
    all
}

fn bound_is_narrow(bound: &Bound<Ratio>) -> bool
    ensures value { result ≡ bound_is_narrow bound.now }
    ensures lowest { BoundHas IsLowest bound.now }
{
    match bound {
        Bound::Finite(value) => is_narrow(value),
        Bound::Infinite => true,
    }
}

fn beyond_is_narrow(beyond: &Beyond) -> bool
    ensures value { result ≡ beyond_is_narrow beyond.now }
    ensures lowest { BeyondHas IsLowest beyond.now }
{
    match beyond {
        Beyond::Outside(duals) => are_narrow(duals.as_slice()),
        Beyond::Ray(direction) => are_narrow(direction.as_slice()),
    }
}

fn end_is_narrow(e: &End) -> bool
    ensures value { result ≡ end_is_narrow e.now }
    ensures lowest { EndHas IsLowest e.now }
{
    let bound = bound_is_narrow(&e.bound);
    let coef = are_narrow(e.vertex.coef.as_slice());
    let inside = are_narrow(e.inside.as_slice());
    let beyond = beyond_is_narrow(&e.beyond);
    both(bound, both(coef, both(inside, beyond)))
}

fn interval_is_narrow(t: &IntervalProof) -> bool
    ensures value { result ≡ interval_is_narrow t.now }
    ensures lowest { IntervalHas IsLowest t.now }
{
    let tau = is_narrow(&t.tau);
    let crit = is_narrow(&t.crit);
    let low = end_is_narrow(&t.low);
    let high = end_is_narrow(&t.high);
    let projection = are_narrow(t.projection.as_slice());
    both(tau, both(crit, both(low, both(high, projection))))
}

fn intervals_are_narrow(intervals: &[IntervalProof]) -> bool
    ensures value { result ≡ intervals_are_narrow intervals.now }
    ensures lowest { All (IntervalHas IsLowest) intervals.now }
{
    let mut all = true;
    for interval in intervals {
        let here = interval_is_narrow(interval);
        all = both(all, here);
    }
    all
}

/// Whether no number of the segments and the intervals is wider than 127 bits; and each of them is in lowest terms.
pub(crate) fn cert_is_narrow(cert: &Cert) -> bool
    ensures value { result ≡ cert_is_narrow cert.now }
    ensures lowest { AreLowest cert.now }
{
    let segments = segments_are_narrow(cert.segments.as_slice());
    let intervals = intervals_are_narrow(cert.intervals.as_slice());
    both(segments, intervals)
}
