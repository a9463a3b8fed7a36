//! The scores of one basic row.
ghost use Rattle.std.specs.Prelude.{◌≡◌, ◌≢◌, ℕ, ◌<◌, Contains, length, slice_index, IfOk, pos};
ghost use Rattle.std.specs.List.Sorted.{IsStrictlyIncreasing};
ghost use Rattle.rational_laws.specs.Fraction.{rational};
ghost use Rattle.rational_laws.specs.Rational.{whole};
ghost use Rattle.loss_model.specs.Dual.{IsDataRow};
ghost use Rattle.loss_model.specs.Problem.{number_at, sample};
ghost use Rattle.rankscores.specs.Scores.{row_score, score, IsScorable};

use crate::score::rankscore;
use frac_core::{Exact, OutOfMemory};
use loss_model::{Problem, Segment};
use ratio::Ratio;
use std::alloc::Global;

/// The rankscores of a basic row at the two ends of a segment. Of a penalty row they are its dual
/// values.
#[derive(Drop)]
pub struct ScorePair {
    pub row: u32,
    pub at_lo: Ratio,
    pub at_hi: Ratio,
}

// The rankscores of the basic row at a place, which is a data row.
fn rank_pair<F: Exact>(
    alloc: Global,
    problem: &Problem<F>,
    segment: &Segment,
    place: usize,
) -> Result<ScorePair, OutOfMemory>
    requires scorable { IsScorable problem.now segment.now }
    requires within { place < length segment.now.vertex.basis.rows }
    requires weighted { (sample F.value problem.now).up1 (slice_index segment.now.vertex.basis.rows place) ≢ whole (pos 0) }
    ensures row { IfOk result (λ q. q.row ≡ slice_index segment.now.vertex.basis.rows place) }
    ensures at_lo { let s = segment.now in IfOk result (λ q. rational q.at_lo ≡ score F.value problem.now s.vertex s.basic_lo s.lo q.row) }
    ensures at_hi { let s = segment.now in IfOk result (λ q. rational q.at_hi ≡ score F.value problem.now s.vertex s.basic_hi s.hi q.row) }
{
    let low = segment.basic_lo.as_slice();
    let high = segment.basic_hi.as_slice();
    let row = segment.vertex.basis.rows.as_slice()[place];
    let weight = problem.rows.as_slice()[row as usize].up1;
    let at_lo = rankscore(alloc, &low[place], weight, &segment.lo)?;
    let at_hi = rankscore(alloc, &high[place], weight, &segment.hi)?;
    Ok(ScorePair { row, at_lo, at_hi })
}

// The dual values of the basic row at a place.
fn dual_pair<F>(
    alloc: Global,
    problem: &Problem<F>,
    segment: &Segment,
    place: usize,
) -> Result<ScorePair, OutOfMemory>
    requires scorable { IsScorable problem.now segment.now }
    requires within { place < length segment.now.vertex.basis.rows }
    ensures row { IfOk result (λ q. q.row ≡ slice_index segment.now.vertex.basis.rows place) }
    ensures at_lo { IfOk result (λ q. rational q.at_lo ≡ number_at segment.now.basic_lo place) }
    ensures at_hi { IfOk result (λ q. rational q.at_hi ≡ number_at segment.now.basic_hi place) }
{
    let low = segment.basic_lo.as_slice();
    let high = segment.basic_hi.as_slice();
    let row = segment.vertex.basis.rows.as_slice()[place];
    let at_lo = low[place].copy(alloc)?;
    let at_hi = high[place].copy(alloc)?;
    Ok(ScorePair { row, at_lo, at_hi })
}

// The rankscores of the basic row at a place, or its dual values where it is no data row.
pub(crate) fn score_pair<F: Exact>(
    alloc: Global,
    problem: &Problem<F>,
    data_rows: u32,
    segment: &Segment,
    place: usize,
) -> Result<ScorePair, OutOfMemory>
    requires scorable { IsScorable problem.now segment.now }
    requires weighted { (i : ℕ) → i < data_rows → (sample F.value problem.now).up1 i ≢ whole (pos 0) }
    requires within { place < length segment.now.vertex.basis.rows }
    ensures row { IfOk result (λ q. q.row ≡ slice_index segment.now.vertex.basis.rows place) }
    ensures at_lo { let s = segment.now in IfOk result (λ q. rational q.at_lo ≡ row_score F.value problem.now data_rows s.vertex s.basic_lo s.lo q.row) }
    ensures at_hi { let s = segment.now in IfOk result (λ q. rational q.at_hi ≡ row_score F.value problem.now data_rows s.vertex s.basic_hi s.hi q.row) }
{
    let row = segment.vertex.basis.rows.as_slice()[place];
    if row < data_rows {
        let pair = rank_pair(alloc, problem, segment, place)?;
        return Ok(pair);
    }
    let pair = dual_pair(alloc, problem, segment, place)?;
    Ok(pair)
}

// The place of a row in an ascending list that has it.
fn place_of(rows: &[u32], row: u32) -> usize
    requires ascending { IsStrictlyIncreasing rows.now }
    requires there { Contains rows.now row }
    ensures within { result < length rows.now }
    ensures found { row ≡ slice_index rows.now result }
{
    rows.binary_search(&row).unwrap()
}

// The rankscores of a basic row, where all rows are data rows.
pub(crate) fn basic_scores<F: Exact>(
    alloc: Global,
    problem: &Problem<F>,
    segment: &Segment,
    row: u32,
) -> Result<ScorePair, OutOfMemory>
    requires scorable { IsScorable problem.now segment.now }
    requires inside { row < length problem.now.rows }
    requires data { (i : ℕ) → i < length problem.now.rows → IsDataRow (sample F.value problem.now) i }
    requires there { Contains segment.now.vertex.basis.rows row }
    ensures at_lo { let s = segment.now in IfOk result (λ q. rational q.at_lo ≡ score F.value problem.now s.vertex s.basic_lo s.lo row) }
    ensures at_hi { let s = segment.now in IfOk result (λ q. rational q.at_hi ≡ score F.value problem.now s.vertex s.basic_hi s.hi row) }
{
    let place = place_of(segment.vertex.basis.rows.as_slice(), row);
    let pair = rank_pair(alloc, problem, segment, place)?;
    Ok(pair)
}
