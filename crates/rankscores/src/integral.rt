//! Areas below rankscores over many segments, and the Wilcoxon scores.
//!
//! The rankscore of a row goes from point to point in straight lines and has no jump, so twice the area
//! below it is the sum of the cross products of neighbouring points, plus the rankscore at 1 (the
//! surveyor's formula). A cross product has the denominators of two points once, where the area of a
//! trapezoid has them twice.
//!
//! Along a run of segments at which a row lies above the fit, its rankscore is 1, and the cross products
//! add up to the run's length: its end less its start, however many segments. Below the fit they are 0. So the terms
//! of a row are those at which it is basic, and two for each run.
ghost use Rattle.std.specs.Prelude.{◌≡◌, ℕ, ◌<◌, ◌≤◌, All, Contains, Some, IfOk, OnOk, length, slice_get, pos, negsuc};
ghost use Rattle.rational_laws.specs.Fraction.{rational};
ghost use Rattle.rational_laws.specs.Rational.{◌+ℚ◌, ◌-ℚ◌, whole};
ghost use Rattle.loss_model.specs.Dual.{IsDataRow};
ghost use Rattle.loss_model.specs.Problem.{sample};
ghost use Rattle.loss_model.specs.Segment.{Covers, segments_of};
ghost use Rattle.ratio.specs.Sums.{total};
ghost use Rattle.rankscores.specs.Rows.{area_to, cross_to, last_score, open_end, segment_cross, IsIntegrable};
ghost use Rattle.rankscores.specs.Scores.{score, IsScorable};
ghost use Rattle.rankscores.specs.Wilcoxon.{half as half_of, AreWilcoxon};

use crate::pair::basic_scores;
use crate::score::cross_product;
use crate::unreduced::half_sum;
use frac_core::{Exact, List, OutOfMemory};
use loss_model::laws::rankscores_outside;
use loss_model::{Problem, Process, Segment, Side};
use ratio::Ratio;
use std::alloc::Global;

/// The Wilcoxon score of each row: the integral of its rankscore over 0 to 1, minus 1/2
/// (Gutenbrunner and Jurečková 1992). It lies in -1/2 to 1/2.
///
/// The process covers 0 to 1, all rows are data rows, and each segment has one side per row and as
/// many basic values at either end as basic rows. It refuses only for memory.
pub fn wilcoxon<F: Exact>(
    alloc: Global,
    problem: &Problem<F>,
    process: &Process,
) -> Result<List<Ratio>, OutOfMemory>
    requires rows { length problem.now.rows ≤ 16384 }
    requires data { (i : ℕ) → i < length problem.now.rows → IsDataRow (sample F.value problem.now) i }
    requires scorable { All (IsScorable problem.now) process.now.segments }
    requires covers { Covers (length problem.now.rows) (whole (pos 0)) (whole (pos 1)) (segments_of F.value problem.now process.now.segments) }
    ensures { IfOk result (AreWilcoxon F.value problem.now process.now.segments) }
{
    let segments = process.segments.as_slice();
    let mut scores = List::new(alloc);
    for row in 0..problem.rows.as_slice().len() {
        let score = wilcoxon_of(alloc, problem, segments, row as u32)?;
        scores.add(score)?;
    }
    Ok(scores)
}

// The side of a row.
fn side_of(segment: &Segment, row: u32) -> Side
    requires { row < length segment.now.vertex.sides }
    ensures { slice_get segment.now.vertex.sides row ≡ Some result }
{
    segment.vertex.sides.as_slice()[row as usize]
}

// One term more.
fn put(terms: &mut List<Ratio>, term: Ratio) -> Result<(), OutOfMemory>
    ensures { OnOk result (total terms.new ≡ total terms.old +ℚ rational term) }
{
    terms.add(term)?;
    Ok(())
}

// Puts where a run of segments begins, if none is open: its low end is taken off.
fn begin(
    alloc: Global,
    terms: &mut List<Ratio>,
    is_open: bool,
    lo: &Ratio,
) -> Result<(), OutOfMemory>
    ensures { OnOk result (total terms.new ≡ (total terms.old +ℚ open_end is_open (rational lo.now)) -ℚ rational lo.now) }
{
    if is_open {
        return Ok(());
    }
    let start = lo.copy(alloc)?;
    put(terms, start.neg())?;
    Ok(())
}

// Puts where a run ends, if one is open.
fn close(
    alloc: Global,
    terms: &mut List<Ratio>,
    is_open: bool,
    end: &Ratio,
) -> Result<(), OutOfMemory>
    ensures { OnOk result (total terms.new ≡ total terms.old +ℚ open_end is_open (rational end.now)) }
{
    if is_open {
        let end = end.copy(alloc)?;
        put(terms, end)?;
        return Ok(());
    }
    Ok(())
}

// The cross product of a basic row along a segment.
fn basic_cross<F: Exact>(
    alloc: Global,
    problem: &Problem<F>,
    segment: &Segment,
    row: u32,
) -> Result<Ratio, OutOfMemory>
    requires scorable { IsScorable problem.now segment.now }
    requires inside { row < length problem.now.rows }
    requires data { (i : ℕ) → i < length problem.now.rows → IsDataRow (sample F.value problem.now) i }
    requires there { Contains segment.now.vertex.basis.rows row }
    ensures { IfOk result (λ r. rational r ≡ segment_cross F.value problem.now segment.now row) }
{
    let scores = basic_scores(alloc, problem, segment, row)?;
    let cross = cross_product(alloc, segment, &scores.at_lo, &scores.at_hi);
    drop(scores);
    cross
}

// Puts what a segment adds at which the row is basic, or begins or ends a run; and tells whether one is open behind it.
fn plus_cross<F: Exact>(
    alloc: Global,
    problem: &Problem<F>,
    segment: &Segment,
    row: u32,
    terms: &mut List<Ratio>,
    is_open: bool,
) -> Result<bool, OutOfMemory>
    requires scorable { IsScorable problem.now segment.now }
    requires inside { row < length problem.now.rows }
    requires data { (i : ℕ) → i < length problem.now.rows → IsDataRow (sample F.value problem.now) i }
    ensures { IfOk result (λ next. total terms.new +ℚ open_end next (rational segment.now.hi)
        ≡ (total terms.old +ℚ open_end is_open (rational segment.now.lo)) +ℚ segment_cross F.value problem.now segment.now row) }
{
    rankscores_outside(problem, &segment.vertex);
    match side_of(segment, row) {
        Side::Up => {
            begin(alloc, terms, is_open, &segment.lo)?;
            Ok(true)
        }
        Side::Down => {
            close(alloc, terms, is_open, &segment.lo)?;
            Ok(false)
        }
        Side::Basic => {
            close(alloc, terms, is_open, &segment.lo)?;
            let cross = basic_cross(alloc, problem, segment, row)?;
            put(terms, cross)?;
            Ok(false)
        }
    }
}

// The cross products of a row.
fn crosses<F: Exact>(
    alloc: Global,
    problem: &Problem<F>,
    segments: &[Segment],
    row: u32,
) -> Result<List<Ratio>, OutOfMemory>
    requires { IsIntegrable F.value problem.now segments.now row }
    ensures { IfOk result (λ r. total r ≡ cross_to F.value problem.now segments.now row (length segments.now)) }
{
    let mut terms = List::new(alloc);
    let mut is_open = false;
    for (number, segment) in segments.iter().enumerate() {
        is_open = plus_cross(alloc, problem, segment, row, &mut terms, is_open)?;
    }
    let last = &segments[segments.len() - 1];
    close(alloc, &mut terms, is_open, &last.hi)?;
    Ok(terms)
}

// The rankscore of a row at the end of a segment.
fn high_score<F: Exact>(
    alloc: Global,
    problem: &Problem<F>,
    segment: &Segment,
    row: u32,
) -> Result<Ratio, OutOfMemory>
    requires scorable { IsScorable problem.now segment.now }
    requires inside { row < length problem.now.rows }
    requires data { (i : ℕ) → i < length problem.now.rows → IsDataRow (sample F.value problem.now) i }
    ensures { IfOk result (λ r. rational r ≡ score F.value problem.now segment.now.vertex segment.now.basic_hi segment.now.hi row) }
{
    rankscores_outside(problem, &segment.vertex);
    match side_of(segment, row) {
        Side::Up => {
            let one = Ratio::whole(alloc, 1)?;
            Ok(one)
        }
        Side::Down => {
            let zero = Ratio::zero(alloc)?;
            Ok(zero)
        }
        Side::Basic => {
            let scores = basic_scores(alloc, problem, segment, row)?;
            Ok(scores.at_hi)
        }
    }
}

// Puts the rankscore of a row at 1, less 1.
fn put_end<F: Exact>(
    alloc: Global,
    problem: &Problem<F>,
    segments: &[Segment],
    row: u32,
    terms: &mut List<Ratio>,
) -> Result<(), OutOfMemory>
    requires { IsIntegrable F.value problem.now segments.now row }
    ensures { OnOk result (total terms.new ≡ (total terms.old +ℚ last_score F.value problem.now segments.now row) +ℚ whole (negsuc 0)) }
{
    let last = &segments[segments.len() - 1];
    let score = high_score(alloc, problem, last, row)?;
    put(terms, score)?;
    let less = Ratio::whole(alloc, -1)?;
    put(terms, less)?;
    Ok(())
}

// The Wilcoxon score of a row.
fn wilcoxon_of<F: Exact>(
    alloc: Global,
    problem: &Problem<F>,
    segments: &[Segment],
    row: u32,
) -> Result<Ratio, OutOfMemory>
    requires { IsIntegrable F.value problem.now segments.now row }
    ensures { IfOk result (λ r. rational r ≡ area_to F.value problem.now segments.now row (length segments.now) -ℚ half_of) }
{
    let mut terms = crosses(alloc, problem, segments, row)?;
    put_end(alloc, problem, segments, row, &mut terms)?;
    let score = half_sum(alloc, terms.as_slice())?;
    Ok(score)
}
