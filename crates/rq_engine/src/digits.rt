//! Whether no number of a certificate's segments and intervals has more digits than are read.
ghost use Rattle.std.specs.Prelude.{◌≡◌, ◌&&◌, IfOk};
ghost use Rattle.rq_engine.specs.Digits.{are_readable, beyond_is_readable, bound_is_readable, cert_is_readable, end_is_readable, has_few_digits, interval_is_readable, intervals_are_readable, is_readable, segment_is_readable, segments_are_readable};

use cert_text::Cert;
use frac_core::OutOfMemory;
use loss_model::{Beyond, Bound, End, IntervalProof, Segment};
use natural::Natural;
use ratio::Ratio;
use std::alloc::Global;

/// The most digits of a number that is read.
const MOST_DIGITS: usize = 65_536;

// A number of 128 bits has 39 digits at most, and isn't written for them.
fn has_few_digits(alloc: Global, n: &Natural) -> Result<bool, OutOfMemory>
    ensures { IfOk result (λ few. few ≡ has_few_digits n.now) }
{
    if n.narrow().is_some() {
        return Ok(true);
    }
    let mut text = Vec::new(alloc);
    n.write_decimal(alloc, &mut text)?;
    Ok(text.len() <= MOST_DIGITS)
}

fn both(first: bool, second: bool) -> bool
    ensures { result ≡ (first && second) }
{
    first && second
}

fn is_readable(alloc: Global, x: &Ratio) -> Result<bool, OutOfMemory>
    ensures { IfOk result (λ few. few ≡ is_readable x.now) }
{
    let num = has_few_digits(alloc, x.numerator().size())?;
    let den = has_few_digits(alloc, x.denominator())?;
    Ok(both(num, den))
}

fn are_readable(alloc: Global, numbers: &[Ratio]) -> Result<bool, OutOfMemory>
    ensures { IfOk result (λ few. few ≡ are_readable numbers.now) }
{
    let mut all = true;
    for number in numbers {
        let here = is_readable(alloc, number)?;
        all = both(all, here);
    }
    Ok(all)
}

fn segment_is_readable(alloc: Global, s: &Segment) -> Result<bool, OutOfMemory>
    ensures { IfOk result (λ few. few ≡ segment_is_readable s.now) }
{
    let lo = is_readable(alloc, &s.lo)?;
    let hi = is_readable(alloc, &s.hi)?;
    let coef = are_readable(alloc, s.vertex.coef.as_slice())?;
    let basic_lo = are_readable(alloc, s.basic_lo.as_slice())?;
    let basic_hi = are_readable(alloc, s.basic_hi.as_slice())?;
    let loss_lo = is_readable(alloc, &s.loss_lo)?;
    let loss_hi = is_readable(alloc, &s.loss_hi)?;
    let losses = both(loss_lo, loss_hi);
    let duals = both(basic_lo, both(basic_hi, losses));
    Ok(both(lo, both(hi, both(coef, duals))))
}

fn segments_are_readable(alloc: Global, segments: &[Segment]) -> Result<bool, OutOfMemory>
    ensures { IfOk result (λ few. few ≡ segments_are_readable segments.now) }
{
    let mut all = true;
    for segment in segments {
        let here = segment_is_readable(alloc, segment)?;
        all = both(all, here);
    }
    Ok(all)
}

fn bound_is_readable(alloc: Global, bound: &Bound<Ratio>) -> Result<bool, OutOfMemory>
    ensures { IfOk result (λ few. few ≡ bound_is_readable bound.now) }
{
    match bound {
        Bound::Finite(value) => is_readable(alloc, value),
        Bound::Infinite => Ok(true),
    }
}

fn beyond_is_readable(alloc: Global, beyond: &Beyond) -> Result<bool, OutOfMemory>
    ensures { IfOk result (λ few. few ≡ beyond_is_readable beyond.now) }
{
    match beyond {
        Beyond::Outside(duals) => are_readable(alloc, duals.as_slice()),
        Beyond::Ray(direction) => are_readable(alloc, direction.as_slice()),
    }
}

fn end_is_readable(alloc: Global, e: &End) -> Result<bool, OutOfMemory>
    ensures { IfOk result (λ few. few ≡ end_is_readable e.now) }
{
    let bound = bound_is_readable(alloc, &e.bound)?;
    let coef = are_readable(alloc, e.vertex.coef.as_slice())?;
    let inside = are_readable(alloc, e.inside.as_slice())?;
    let beyond = beyond_is_readable(alloc, &e.beyond)?;
    Ok(both(bound, both(coef, both(inside, beyond))))
}

fn interval_is_readable(alloc: Global, t: &IntervalProof) -> Result<bool, OutOfMemory>
    ensures { IfOk result (λ few. few ≡ interval_is_readable t.now) }
{
    let tau = is_readable(alloc, &t.tau)?;
    let crit = is_readable(alloc, &t.crit)?;
    let low = end_is_readable(alloc, &t.low)?;
    let high = end_is_readable(alloc, &t.high)?;
    let projection = are_readable(alloc, t.projection.as_slice())?;
    Ok(both(tau, both(crit, both(low, both(high, projection)))))
}

fn intervals_are_readable(alloc: Global, intervals: &[IntervalProof]) -> Result<bool, OutOfMemory>
    ensures { IfOk result (λ few. few ≡ intervals_are_readable intervals.now) }
{
    let mut all = true;
    for interval in intervals {
        let here = interval_is_readable(alloc, interval)?;
        all = both(all, here);
    }
    Ok(all)
}

/// Whether no number of the segments and the intervals has more than 65,536 digits.
pub(crate) fn cert_is_readable(alloc: Global, cert: &Cert) -> Result<bool, OutOfMemory>
    ensures { IfOk result (λ few. few ≡ cert_is_readable cert.now) }
{
    let segments = segments_are_readable(alloc, cert.segments.as_slice())?;
    let intervals = intervals_are_readable(alloc, cert.intervals.as_slice())?;
    Ok(both(segments, intervals))
}
