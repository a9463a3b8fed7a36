//! A column of numerators that many rows are multiplied by, one row at a time.
ghost use Rattle.std.specs.Prelude.{◌≡◌, ℤ, ◌*◌, ◌^◌, ◌<◌, ◌≤◌, All, length, unsigned_abs, IfSome};
ghost use Rattle.rational_laws.specs.Rational.{◌*ℚ◌};
ghost use Rattle.rational_laws.specs.RationalSums.{sum_ℚ};
ghost use Rattle.wide_int.specs.Numbers.{sizes, total};
ghost use Rattle.rational_laws.specs.WholeLists.{whole_at};
ghost use Rattle.whole_inverse.specs.Shares.{share, share_at};
ghost use Rattle.whole_solution.specs.Columns.{IsColumn, HasWidth};

use crate::halves::grown;
use whole_inverse::{product_of, product_within};
use wide_int::bound_of;

/// How many bits the sums of the products of a row within a limit and a column are known to have: 63, 127, or any number.
#[derive(Clone, Copy)]
pub enum Width {
    Narrow,
    Wide,
    Unknown,
}

/// A column of numerators, for rows whose entries are within a limit. The width of all products is found once.
#[derive(Clone, Copy)]
pub struct Column<'a> {
    pub numbers: &'a [i128],
    pub limit: u64,
    pub width: Width,
}

/// The width of the products of rows within the limit and a column.
fn width_of(numbers: &[i128], limit: u64) -> Width
    ensures { HasWidth numbers.now limit result }
{
    match bound_of(numbers, limit) {
        Some(bound) => {
            if limit >= 1 && bound <= i64::MAX as u128 {
                Width::Narrow
            } else {
                Width::Wide
            }
        }
        None => Width::Unknown,
    }
}

/// A number of 64 bits.
#[inline]
fn narrowed(number: i128) -> i64
    requires { unsigned_abs number < 2 ^ 63 }
    ensures { result ≡ number }
{
    number as i64
}

/// The sum of the products of a row and a column of such a width, where all numbers have 64 bits. Where the width is known when this is
/// compiled, there is no loop.
#[inline(always)]
fn product_of_width(row: &[i64], column: &[i128], width: usize, limit: u64) -> i64
    requires row { length row.now ≡ width }
    requires column { length column.now ≡ width }
    requires small { All (λ x. unsigned_abs x ≤ limit) row.now }
    requires bound { limit * sizes column.now < 2 ^ 63 }
    requires fits { sizes column.now < 2 ^ 63 }
    ensures { result ≡ total row.now column.now }
{
    let mut sum: i64 = 0;
    for i in 0..width {
        sum = grown(sum, row[i], narrowed(column[i]));
    }
    sum
}

/// The same of any width. The common ones have code of their own, for a loop over a few entries takes longer.
#[inline(always)]
fn narrow_product(row: &[i64], column: &[i128], limit: u64) -> i64
    requires same { length row.now ≡ length column.now }
    requires small { All (λ x. unsigned_abs x ≤ limit) row.now }
    requires bound { limit * sizes column.now < 2 ^ 63 }
    requires fits { sizes column.now < 2 ^ 63 }
    ensures { result ≡ total row.now column.now }
{
    match column.len() {
        2 => product_of_width(row, column, 2, limit),
        3 => product_of_width(row, column, 3, limit),
        4 => product_of_width(row, column, 4, limit),
        5 => product_of_width(row, column, 5, limit),
        6 => product_of_width(row, column, 6, limit),
        7 => product_of_width(row, column, 7, limit),
        8 => product_of_width(row, column, 8, limit),
        width => product_of_width(row, column, width, limit),
    }
}

impl<'a> Column<'a> {
    /// The column of these numerators.
    pub fn of(numbers: &'a [i128], limit: u64) -> Column<'a>
        ensures { IsColumn numbers.now limit result }
    {
        Column {
            numbers,
            limit,
            width: width_of(numbers, limit),
        }
    }

    /// Whether all sums of products are known to have 63 bits.
    pub fn is_narrow(&self) -> bool {
        match self.width {
            Width::Narrow => true,
            _ => false,
        }
    }

    /// The numerator of the product of a row and the column, where it has 127 bits and a sign. A known width spares tests.
    #[inline]
    pub fn product(&self, x: &[i64]) -> Option<i128>
        requires column { IsColumn self.now.numbers.now self.now.limit self.now }
        requires same { length x.now ≡ length self.now.numbers.now }
        requires small { All (λ e. unsigned_abs e ≤ self.now.limit) x.now }
        ensures { IfSome result (λ c. (d : ℤ) → share c d ≡ sum_ℚ (length x.now) (λ k. whole_at x.now k *ℚ share_at d self.now.numbers.now k)) }
    {
        match self.width {
            Width::Narrow => Some(i128::from(narrow_product(x, self.numbers, self.limit))),
            Width::Wide => Some(product_within(x, self.numbers, self.limit)),
            Width::Unknown => product_of(x, self.numbers),
        }
    }

    /// The same, and where `NARROW`, of a column whose products are known to have 63 bits alone: so a loop over rows is compiled for
    /// numbers of 64 bits.
    #[inline(always)]
    pub fn product_in<const NARROW: bool>(&self, x: &[i64]) -> Option<i128>
        requires column { IsColumn self.now.numbers.now self.now.limit self.now }
        requires same { length x.now ≡ length self.now.numbers.now }
        requires small { All (λ e. unsigned_abs e ≤ self.now.limit) x.now }
        ensures { IfSome result (λ c. (d : ℤ) → share c d ≡ sum_ℚ (length x.now) (λ k. whole_at x.now k *ℚ share_at d self.now.numbers.now k)) }
    {
        if !NARROW {
            return self.product(x);
        }
        match self.width {
            Width::Narrow => Some(i128::from(narrow_product(x, self.numbers, self.limit))),
            _ => None,
        }
    }
}
