//! Rows near an earlier fit, and how long all others are sure to keep their sides.
//!
//! A row is far where its residual at the earlier fit is at least a distance, times 2 to the power of the row's class. How far any
//! residual can have moved since, over the same power, is bounded by the coefficients, of all rows at once. While that is less than the
//! distance, far rows keep their sides and have residuals of at least what is left of it, the reach, times that power, so that only near
//! rows are looked at.
ghost use Rattle.std.specs.Prelude.{◌≡◌, ℕ, ℤ, ◌*◌, ◌<◌, ◌≤◌, ◌^◌, ◌≤ℤ◌, All, length, unsigned_abs, IfOk, IfSome, IsTrue, pos};
ghost use Rattle.rational_laws.specs.Rational.{◌+ℚ◌, ◌*ℚ◌, ◌≤ℚ◌, whole};
ghost use Rattle.loss_model.specs.declared.vertex.Side.TheVariants.{Up, Down};
ghost use Rattle.wide_int.specs.Numbers.{joined, number_of};
ghost use Rattle.whole_inverse.specs.Shares.{share, share_at};
ghost use Rattle.loss_model.specs.Sides.{side_in};
ghost use Rattle.whole_solution.specs.Far.{move_of, moves, reaching, room, IsChosen, IsFarOn, IsListed, IsNearOrFar};
ghost use Rattle.whole_solution.specs.Ranges.{factor_at, power};

use crate::ranges::Ranges;
use crate::sides::is_held;
use frac_core::List;
use loss_model::Side;
use std::alloc::Global;
use std::cmp::Ordering;
use whole_inverse::{Obstacle, room_for};
use wide_int::{Natural, Wide};

/// The rows near an earlier fit, whose coefficients stand over its determinant, as do the distance and the reach: the residuals of all
/// other rows were at least the distance there, and are at least the reach now, both times 2 to the power of the row's class. The entries
/// of each row are within the ranges of the columns, times that power.
#[derive(Drop)]
pub struct Near {
    pub rows: List<u32>,
    pub coef: List<i128>,
    pub determinant: i128,
    pub distance: u128,
    pub reach: u128,
    pub ranges: Ranges,
}

/// Whether a residual isn't below 0, on the side above.
fn is_above(side: Side, residual: i128) -> bool
    ensures { IsTrue result → (side ≡ Up) × (pos 0 ≤ℤ residual) }
{
    match side {
        Side::Up => residual >= 0,
        _ => false,
    }
}

/// Whether it isn't above 0, on the side below.
fn is_below(side: Side, residual: i128) -> bool
    ensures { IsTrue result → (side ≡ Down) × (residual ≤ℤ pos 0) }
{
    match side {
        Side::Down => residual <= 0,
        _ => false,
    }
}

/// The size of a number over 2 to the power of a class, without what is left.
fn size_over(number: i128, class: u8) -> u128
    ensures { result * 2 ^ class ≤ unsigned_abs number }
{
    let size = number.unsigned_abs();
    if class == 0 {
        return size;
    }
    match size.checked_shr(u32::from(class)) {
        Some(over) => over,
        None => 0,
    }
}

/// Whether a residual is at least `far`, times 2 to the power of a class, on a side. All answers stand before they are joined: nothing
/// foretells the side, and a branch would often be taken back.
fn is_far_on(side: Side, residual: i128, class: u8, far: u128) -> bool
    ensures { IsTrue result → (d : ℤ) → pos 1 ≤ℤ d → IsFarOn side (power class *ℚ share (pos far) d) (share residual d) }
{
    let above = is_above(side, residual);
    let below = is_below(side, residual);
    let is_long = size_over(residual, class) >= far;
    is_long & (above | below)
}

/// The rows whose residual isn't at least `far`, times 2 to the power of their class, on their side.
fn near_rows(
    alloc: Global,
    residuals: &[i128],
    sides: &[Side],
    classes: &[u8],
    far: u128,
) -> Result<List<u32>, Obstacle>
    requires same { length sides.now ≡ length residuals.now }
    requires classes { length classes.now ≡ length residuals.now }
    requires few { length residuals.now < 2 ^ 32 }
    ensures within { IfOk result (λ near. All (λ i. i < length residuals.now) near) }
    ensures others { IfOk result (λ near. (d : ℤ) → pos 1 ≤ℤ d → (i : ℕ) → i < length residuals.now → IsNearOrFar near (side_in sides.now i) (factor_at classes.now i *ℚ share (pos far) d) i (share_at d residuals.now i)) }
{
    let mut near = room_for(alloc, 128)?;
    for row in 0..residuals.len() as u32 {
        let class = classes[row as usize];
        if !is_far_on(sides[row as usize], residuals[row as usize], class, far) {
            near.add(row)?;
        }
    }
    Ok(near)
}

/// How many rows are taken as near, or a little more: about twice the root of their number, and eight a column.
fn near_count(rows: usize, columns: usize) -> u64 {
    let bits = 64 - (rows as u64).leading_zeros();
    (columns as u64)
        .saturating_mul(8)
        .saturating_add(2 << (bits / 2))
}

/// About so many residuals are looked at to choose a distance.
const SAMPLE: usize = 256;

/// How many residuals stand from one that is looked at to the next.
fn stride_of(residuals: usize) -> usize
    ensures { 1 ≤ result }
{
    (residuals / SAMPLE).max(1)
}

/// The sizes of every so many residuals, over 2 to the power of the class of each.
fn sizes_of(
    alloc: Global,
    residuals: &[i128],
    classes: &[u8],
    stride: usize,
) -> Result<List<u128>, Obstacle>
    requires { 1 ≤ stride }
{
    let end = residuals.len().min(classes.len());
    let mut sizes = room_for(alloc, end / stride + 1)?;
    let mut next: usize = 0;
    for _ in 0..end {
        if next >= end {
            return Ok(sizes);
        }
        sizes.add(size_over(residuals[next], classes[next]))?;
        next = next.saturating_add(stride);
    }
    Ok(sizes)
}

/// How many sizes are below a bound.
fn count_below(sizes: &[u128], bound: u128) -> u64 {
    let mut count: u64 = 0;
    for i in 0..sizes.len() {
        if sizes[i] < bound {
            count += 1;
        }
    }
    count
}

/// A number and some quarters of it, of which there are at most three.
fn with_quarters(unit: u128, quarters: u32) -> u128
    requires { unit < 2 ^ 126 }
    ensures { unit ≤ result }
{
    match quarters {
        0 => unit,
        1 => unit + unit / 4,
        2 => unit + unit / 2,
        _ => unit + unit / 2 + unit / 4,
    }
}

/// How many distances there are to choose from.
const DISTANCES: u32 = 500;

/// A power of 2, or one of three numbers up to the next.
fn distance_at(step: u32) -> u128
    requires { step < 500 }
    ensures { 1 ≤ result }
{
    with_quarters(1 << (step / 4), step % 4)
}

/// The least distance below which so many sizes are. Any number is lawful: this one leaves few rows near.
fn distance_of(sizes: &[u128], few: u64) -> u128
    ensures { 1 ≤ result }
{
    let mut low: u32 = 0;
    let mut high: u32 = DISTANCES - 1;
    while low < high {
        let step = (low + high) / 2;
        if count_below(sizes, distance_at(step)) < few {
            low = step + 1;
        } else {
            high = step;
        }
    }
    distance_at(low)
}

/// Whether a number is at most another one.
fn is_within(number: Natural, most: Natural) -> bool
    ensures { IsTrue result → joined number.low number.high ≤ joined most.low most.high }
{
    match number.compare(most) {
        Ordering::Greater => false,
        _ => true,
    }
}

/// How many times a divisor goes into a number, or a little more, by leading bits. Nothing is promised of it.
fn times_in(number: Natural, divisor: u128) -> u128 {
    let bits = 128 - number.high.leading_zeros();
    let leading = number.low.checked_shr(bits).unwrap_or(0) | number.high.wrapping_shl(128 - bits);
    let divisor = divisor.checked_shr(bits).unwrap_or(0);
    match leading.checked_div(divisor) {
        Some(times) => times.saturating_add(1),
        None => u128::MAX,
    }
}

/// The distance of a walk: below it are some of the least residuals, more of them where there are more columns.
pub(crate) fn walking_distance(
    alloc: Global,
    residuals: &[i128],
    ranges: &Ranges,
) -> Result<u128, Obstacle>
    ensures { IfOk result (λ distance. 1 ≤ distance) }
{
    let stride = stride_of(residuals.len());
    let sizes = sizes_of(alloc, residuals, ranges.classes.as_slice(), stride)?;
    let columns = ranges.middles.as_slice().len();
    let few = near_count(residuals.len(), columns) / stride as u64;
    Ok(distance_of(sizes.as_slice(), few))
}

/// How many rows have gone from one side to the other.
fn passed_rows(old: &[Side], new: &[Side]) -> usize {
    let mut count: usize = 0;
    for i in 0..old.len().min(new.len()) {
        let crosses = (old[i] != new[i]) & (old[i] != Side::Basic) & (new[i] != Side::Basic);
        count = count.wrapping_add(usize::from(crosses));
    }
    count
}

/// The distance after a step of a solve. Where many rows were passed the next step goes far too, so that no row is worth being kept as near
/// but for those on the fit; the last steps pass few, and leave the rows near the fit to a walk.
pub(crate) fn solving_distance(
    alloc: Global,
    residuals: &[i128],
    ranges: &Ranges,
    old: &[Side],
    new: &[Side],
) -> Result<u128, Obstacle>
    ensures { IfOk result (λ distance. 1 ≤ distance) }
{
    if passed_rows(old, new) > residuals.len() / 64 {
        return Ok(1);
    }
    let distance = walking_distance(alloc, residuals, ranges)?;
    Ok(distance)
}

/// How near rows are told from far ones: by a distance, and then by the ranges of the columns.
#[derive(Drop)]
pub struct Choice {
    pub distance: u128,
    pub ranges: Ranges,
}

impl Near {
    /// The rows near a fit, for the steps after it.
    pub(crate) fn chosen(
        alloc: Global,
        residuals: &[i128],
        sides: &[Side],
        coef: &[i128],
        determinant: i128,
        choice: Choice,
    ) -> Result<Near, Obstacle>
        requires same { length sides.now ≡ length residuals.now }
        requires classes { length choice.ranges.classes ≡ length residuals.now }
        requires few { length residuals.now < 2 ^ 32 }
        requires some { pos 1 ≤ℤ determinant }
        requires distance { 1 ≤ choice.distance }
        ensures { IfOk result (IsChosen (side_in sides.now) residuals.now coef.now determinant choice.ranges) }
    {
        let classes = choice.ranges.classes.as_slice();
        let rows = near_rows(alloc, residuals, sides, classes, choice.distance)?;
        let coef = List::copy(alloc, coef)?;
        Ok(Near {
            rows,
            coef,
            determinant,
            distance: choice.distance,
            reach: choice.distance,
            ranges: choice.ranges,
        })
    }

    /// The same with another reach, in lists of their own.
    pub(crate) fn with_reach(&self, alloc: Global, reach: u128) -> Result<Near, Obstacle>
        ensures { IfOk result (λ n. n ≡ reaching self.now reach) }
    {
        let rows = List::copy(alloc, self.rows.as_slice())?;
        let coef = List::copy(alloc, self.coef.as_slice())?;
        let ranges = self.ranges.copy(alloc)?;
        Ok(Near {
            rows,
            coef,
            determinant: self.determinant,
            distance: self.distance,
            reach,
            ranges,
        })
    }

    /// Whether a row is near.
    pub(crate) fn holds(&self, row: u32) -> bool
        ensures { IsTrue result → IsListed self.now.rows row }
    {
        is_held(self.rows.as_slice(), row)
    }

    /// How far a coefficient has moved, times both determinants.
    fn move_of(&self, k: u32, number: i128, determinant: i128) -> Option<Wide>
        requires { k < length self.now.coef }
        ensures { IfSome result (λ m. number_of m ≡ move_of self.now k number determinant) }
    {
        let old = self.coef.as_slice();
        let here = Wide::product(number, self.determinant);
        let there = Wide::product(old[k as usize], determinant);
        let moved = here.plus(there.negation())?;
        Some(moved)
    }

    /// How far all coefficients together can have moved a residual, times both determinants.
    fn room_for_moves(&self, coef: &[i128], determinant: i128) -> Option<Natural>
        requires size { length coef.now ≡ length self.now.coef }
        requires middles { length self.now.ranges.middles ≡ length self.now.coef }
        requires halves { length self.now.ranges.halves ≡ length self.now.coef }
        requires short { length coef.now < 2 ^ 32 }
        ensures { IfSome result (λ n. whole (pos (joined n.low n.high)) ≡ moves self.now coef.now determinant (length coef.now)) }
    {
        let middles = self.ranges.middles.as_slice();
        let halves = self.ranges.halves.as_slice();
        let mut middle = Wide::of(0);
        let mut rest = Natural::of(0);
        for k in 0..coef.len() as u32 {
            let moved = self.move_of(k, coef[k as usize], determinant)?;
            let at_middle = moved.times(i128::from(middles[k as usize]))?;
            let within = moved.size.times(u128::from(halves[k as usize]))?;
            middle = middle.plus(at_middle)?;
            rest = rest.plus(within)?;
        }
        let sum = rest.plus(middle.size)?;
        Some(sum)
    }

    /// What is left of the distance after all that residuals can have moved. None where that is little: then rows are chosen anew before
    /// a far one may come first.
    pub(crate) fn reach_left(&self, coef: &[i128], determinant: i128) -> Option<u128>
        requires size { length coef.now ≡ length self.now.coef }
        requires middles { length self.now.ranges.middles ≡ length self.now.coef }
        requires halves { length self.now.ranges.halves ≡ length self.now.coef }
        requires short { length coef.now < 2 ^ 32 }
        requires some { pos 1 ≤ℤ self.now.determinant }
        requires now { pos 1 ≤ℤ determinant }
        ensures some { IfSome result (λ reach. 1 ≤ reach) }
        ensures left { IfSome result (λ reach. (room (length coef.now) self.now.ranges (share_at self.now.determinant self.now.coef) (share_at determinant coef.now) +ℚ share (pos reach) self.now.determinant) ≤ℚ share (pos self.now.distance) self.now.determinant) }
    {
        let moved = self.room_for_moves(coef, determinant)?;
        let over = determinant.unsigned_abs();
        let reach = self.distance.checked_sub(times_in(moved, over))?;
        if reach <= self.distance / 4 {
            return None;
        }
        let all = Natural::product(reach, over).plus(moved)?;
        if is_within(all, Natural::product(self.distance, over)) {
            Some(reach)
        } else {
            None
        }
    }
}
