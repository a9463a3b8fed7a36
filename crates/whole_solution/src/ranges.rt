//! The ranges of the entries of columns, and how many times as far those of a row may be.
//!
//! Where the entries of a row are known by these alone, its sum of products with some numbers is that of the middles, give or take
//! half a width for each, times 2 to the power of the row's class. So a column without a spread, such as an intercept, and one whose
//! entries are far from 0 leave no more doubt than they must, and the few rows at the ends of a column with long tails leave the others
//! none.
ghost use Rattle.std.specs.Prelude.{◌≡◌, ℕ, ◌<◌, ◌≤◌, ◌*◌, ◌^◌, All, length, IfOk, IsTrue};
ghost use Rattle.rational_laws.specs.WholeLists.{whole_at};
ghost use Rattle.whole_rows.specs.Wholes.{sample_of_rows};
ghost use Rattle.whole_solution.specs.Ranges.{factor_at, power, AreRanges, AreWithin};

use frac_core::List;
use std::alloc::Global;
use whole_inverse::{Obstacle, room_for};
use whole_rows::WholeRow;

/// The middle of the range of each column, half its width, and the class of each row: its entries are no further from the middle than
/// that half times 2 to the power of its class.
#[derive(Drop)]
pub struct Ranges {
    pub middles: List<i64>,
    pub halves: List<u64>,
    pub classes: List<u8>,
}

/// A middle and half a width.
#[derive(Clone, Copy)]
struct Range {
    middle: i64,
    half: u64,
}

/// The range of all entries of a column.
fn whole_range(rows: &[WholeRow<i64>], k: u32, columns: u32) -> Range
    requires column { k < columns }
    requires wide { All (λ r. length r.x ≡ columns) rows.now }
{
    let mut least = i64::MAX;
    let mut greatest = i64::MIN;
    for i in 0..rows.len() {
        let x = rows[i].x.as_slice();
        least = least.min(x[k as usize]);
        greatest = greatest.max(x[k as usize]);
    }
    let width = greatest.wrapping_sub(least);
    let middle = least.wrapping_add(width / 2);
    let half = greatest.abs_diff(middle).max(least.abs_diff(middle));
    Range { middle, half }
}

/// About so many entries of a column are looked at to choose a range.
const SAMPLE: usize = 128;

/// Every so many entries of a column.
fn sample_of(
    alloc: Global,
    rows: &[WholeRow<i64>],
    k: u32,
    columns: u32,
) -> Result<Vec<i64>, Obstacle>
    requires column { k < columns }
    requires wide { All (λ r. length r.x ≡ columns) rows.now }
{
    let stride = (rows.len() / SAMPLE).max(1);
    let mut sample = Vec::new(alloc);
    let mut next: usize = 0;
    for _ in 0..rows.len() {
        if next >= rows.len() {
            return Ok(sample);
        }
        let x = rows[next].x.as_slice();
        if sample.push(x[k as usize]).is_err() {
            return Err(Obstacle::OutOfMemory);
        }
        next = next.saturating_add(stride);
    }
    Ok(sample)
}

/// The number at a place, or 0.
fn number_at(numbers: &[i64], place: usize) -> i64 {
    if place < numbers.len() {
        numbers[place]
    } else {
        0
    }
}

/// The range of most of these numbers, about the middle of their quartiles.
fn range_of_most(numbers: Vec<i64>) -> Result<Range, Obstacle> {
    let mut sorted = numbers;
    if sorted.sort().is_err() {
        return Err(Obstacle::OutOfMemory);
    }
    let count = sorted.as_slice().len();
    let middle = number_at(sorted.as_slice(), count / 2);
    let low = number_at(sorted.as_slice(), count / 20).abs_diff(middle);
    let high = number_at(sorted.as_slice(), (count - count / 20).saturating_sub(1)).abs_diff(
        middle,
    );
    Ok(Range {
        middle,
        half: low.max(high),
    })
}

/// A range for a column: that of all entries, or that of most where others are far outside it. Any range is lawful: of these each row
/// has a class.
fn range_of(alloc: Global, rows: &[WholeRow<i64>], k: u32, columns: u32) -> Result<Range, Obstacle>
    requires column { k < columns }
    requires wide { All (λ r. length r.x ≡ columns) rows.now }
{
    let all = whole_range(rows, k, columns);
    let most = range_of_most(sample_of(alloc, rows, k, columns)?)?;
    if most.half < 2 || most.half > all.half / 3 {
        Ok(all)
    } else {
        Ok(most)
    }
}

/// A number over 2 to the power of a class, rounded up.
fn rounded_up(n: u64, class: u8) -> u64
    requires { class < 64 }
    ensures { n ≤ result * 2 ^ class }
{
    if n == 0 {
        return 0;
    }
    ((n - 1) >> class) + 1
}

/// Whether the entries of a row are within the ranges, times 2 to the power of a class.
fn is_in_class(row: &WholeRow<i64>, middles: &[i64], halves: &[u64], class: u8) -> bool
    requires middles { length middles.now ≡ length row.now.x }
    requires halves { length halves.now ≡ length row.now.x }
    requires class { class < 64 }
    ensures { IsTrue result → AreWithin (length row.now.x) middles.now halves.now (power class) (whole_at row.now.x) }
{
    let x = row.x.as_slice();
    for k in 0..x.len() {
        let half = rounded_up(x[k].abs_diff(middles[k]), class);
        if half > halves[k] {
            return false;
        }
    }
    true
}

/// How many classes there are. Where half a width is more than 1, all numbers of 64 bits are in the last one.
const CLASSES: u8 = 64;

/// The least class of a row.
fn class_of(row: &WholeRow<i64>, middles: &[i64], halves: &[u64]) -> Result<u8, Obstacle>
    requires middles { length middles.now ≡ length row.now.x }
    requires halves { length halves.now ≡ length row.now.x }
    ensures { IfOk result (λ class. AreWithin (length row.now.x) middles.now halves.now (power class) (whole_at row.now.x)) }
{
    for class in 0..CLASSES {
        if is_in_class(row, middles, halves, class) {
            return Ok(class);
        }
    }
    Err(Obstacle::TooWide)
}

/// The classes of all rows.
fn classes_of(
    alloc: Global,
    rows: &[WholeRow<i64>],
    middles: &[i64],
    halves: &[u64],
) -> Result<List<u8>, Obstacle>
    requires wide { All (λ r. length r.x ≡ length middles.now) rows.now }
    requires same { length halves.now ≡ length middles.now }
    ensures size { IfOk result (λ classes. length classes ≡ length rows.now) }
    ensures each { let n = length middles.now in
        IfOk result (λ classes. (i : ℕ) → i < length rows.now → AreWithin n middles.now halves.now (factor_at classes i) ((sample_of_rows n rows.now).x i)) }
{
    let mut classes = room_for(alloc, rows.len())?;
    for i in 0..rows.len() {
        let class = class_of(&rows[i], middles, halves)?;
        classes.add(class)?;
    }
    Ok(classes)
}

impl Ranges {
    /// The ranges of the columns of these rows.
    pub(crate) fn of(
        alloc: Global,
        rows: &[WholeRow<i64>],
        columns: u32,
    ) -> Result<Ranges, Obstacle>
        requires { All (λ r. length r.x ≡ columns) rows.now }
        ensures { IfOk result (AreRanges (sample_of_rows columns rows.now)) }
    {
        let mut middles = room_for(alloc, columns as usize)?;
        let mut halves = room_for(alloc, columns as usize)?;
        for k in 0..columns {
            let range = range_of(alloc, rows, k, columns)?;
            middles.add(range.middle)?;
            halves.add(range.half)?;
        }
        let classes = classes_of(alloc, rows, middles.as_slice(), halves.as_slice())?;
        Ok(Ranges {
            middles,
            halves,
            classes,
        })
    }

    /// The same in lists of their own.
    pub(crate) fn copy(&self, alloc: Global) -> Result<Ranges, Obstacle>
        ensures { IfOk result (λ r. r ≡ self.now) }
    {
        let middles = List::copy(alloc, self.middles.as_slice())?;
        let halves = List::copy(alloc, self.halves.as_slice())?;
        let classes = List::copy(alloc, self.classes.as_slice())?;
        Ok(Ranges {
            middles,
            halves,
            classes,
        })
    }
}
