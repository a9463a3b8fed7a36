//! The steps of a prediction.
ghost use Rattle.std.specs.Prelude.{◌≡◌, All, length, IfOk, OnOk};
ghost use Rattle.rational_laws.specs.Fraction.{rational};
ghost use Rattle.rational_laws.specs.Rational.{◌+ℚ◌, ◌*ℚ◌};
ghost use Rattle.rational_laws.specs.RationalSums.{sum_ℚ};
ghost use Rattle.ratio.specs.Sums.{total};
ghost use Rattle.loss_model.specs.Problem.{value_at};
ghost use Rattle.predict_steps.specs.Predictions.{fitted, prediction as prediction_of, AreSteps};

use crate::step::Step;
use frac_core::{Exact, List, OutOfMemory};
use loss_model::{Process, Segment};
use ratio::{Ratio, sum};
use std::alloc::Global;

/// The steps of a record's prediction, one along each segment of a process: the sum of the entries
/// times the segment's coefficients, plus the offsets. Where the segments cover a range, so do the
/// steps (`laws::cover`). It refuses only for memory.
pub fn steps<F: Exact>(
    alloc: Global,
    process: &Process,
    x: &[F],
    offsets: &[F],
) -> Result<List<Step>, OutOfMemory>
    requires entries { All (λ s. length x.now ≡ length s.vertex.coef) process.now.segments }
    ensures { IfOk result (AreSteps F.value x.now offsets.now process.now.segments) }
{
    let segments = process.segments.as_slice();
    let mut made = List::new(alloc);
    for (number, segment) in segments.iter().enumerate() {
        let value = prediction(alloc, x, segment.vertex.coef.as_slice(), offsets)?;
        let step = step_along(alloc, segment, value)?;
        made.add(step)?;
    }
    Ok(made)
}

// The step of this value along a segment.
fn step_along(alloc: Global, segment: &Segment, value: Ratio) -> Result<Step, OutOfMemory>
    ensures { IfOk result (λ s. s ≡ record { lo = segment.now.lo; hi = segment.now.hi; value = value }) }
{
    let lo = segment.lo.copy(alloc)?;
    let hi = segment.hi.copy(alloc)?;
    Ok(Step { lo, hi, value })
}

// The sum of the entries times the coefficients, plus the offsets.
fn prediction<F: Exact>(
    alloc: Global,
    x: &[F],
    coef: &[Ratio],
    offsets: &[F],
) -> Result<Ratio, OutOfMemory>
    requires { length x.now ≡ length coef.now }
    ensures { IfOk result (λ r. rational r ≡ prediction_of F.value x.now offsets.now coef.now) }
{
    let mut terms = List::new(alloc);
    put_products(alloc, &mut terms, x, coef)?;
    put_offsets(alloc, &mut terms, offsets)?;
    let value = sum(alloc, terms.as_slice())?;
    Ok(value)
}

// An entry times a coefficient.
fn product<F: Exact>(alloc: Global, entry: F, coef: &Ratio) -> Result<Ratio, OutOfMemory>
    ensures { IfOk result (λ r. rational r ≡ rational (F.value entry) *ℚ rational coef.now) }
{
    let factor = Ratio::widen(alloc, entry)?;
    let product = factor.mul(alloc, coef);
    drop(factor);
    product
}

// Puts the entries times the coefficients.
fn put_products<F: Exact>(
    alloc: Global,
    terms: &mut List<Ratio>,
    x: &[F],
    coef: &[Ratio],
) -> Result<(), OutOfMemory>
    requires { length x.now ≡ length coef.now }
    ensures { OnOk result (total terms.new ≡ total terms.old +ℚ fitted F.value x.now coef.now) }
{
    for (k, entry) in x.iter().enumerate() {
        let term = product(alloc, *entry, &coef[k])?;
        terms.add(term)?;
    }
    Ok(())
}

// Puts the offsets.
fn put_offsets<F: Exact>(
    alloc: Global,
    terms: &mut List<Ratio>,
    offsets: &[F],
) -> Result<(), OutOfMemory>
    ensures { OnOk result (total terms.new ≡ total terms.old +ℚ sum_ℚ (length offsets.now) (value_at F.value offsets.now)) }
{
    for (k, offset) in offsets.iter().enumerate() {
        let term = Ratio::widen(alloc, *offset)?;
        terms.add(term)?;
    }
    Ok(())
}
