//! Products of three numbers by their leading bits, and the most that a coordinate can be.
ghost use Rattle.std.specs.Prelude.{◌≡◌, ◌*◌, ◌^◌, ◌<◌, ◌≤◌, length, get_or, IfSome, IsTrue, pos};
ghost use Rattle.rational_laws.specs.Rational.{whole};
ghost use Rattle.wide_int.specs.Numbers.{joined};
ghost use Rattle.whole_solution.specs.Ranges.{most_of_products};
ghost use Rattle.whole_steps.specs.Bounds.{IsReduced};

use whole_solution::Ranges;
use wide_int::Natural;

/// Two numbers of a kind, of which one stands on each side of a comparison.
#[derive(Clone, Copy)]
pub struct Pair {
    pub left: u128,
    pub right: u128,
}

/// As many bits as three factors of a number of 256 bits may have, each.
const BITS: u32 = 84;

/// A number without its last bits, rounded up.
fn rounded_up(n: u128, last: u32) -> u128
    requires { last < 128 }
    ensures { n ≤ result * 2 ^ last }
{
    if n == 0 {
        return 0;
    }
    ((n - 1) >> last) + 1
}

impl Pair {
    /// Both numbers without as many of their last bits, the left one rounded up and the right one down.
    fn reduced(self) -> Pair
        ensures { IsReduced self result }
    {
        let bits = 128 - (self.left | self.right).leading_zeros();
        let last = bits.saturating_sub(BITS);
        Pair {
            left: rounded_up(self.left, last),
            right: self.right >> last,
        }
    }
}

/// The product of three numbers, where it is below 2^256.
fn product_of_three(a: u128, b: u128, c: u128) -> Option<Natural>
    ensures { IfSome result (λ n. joined n.low n.high ≡ a * b * c) }
{
    let two = Natural::product(a, b);
    let three = two.times(c)?;
    Some(three)
}

/// Whether the product of the left numbers is less than that of the right ones, as the leading bits tell. It may be where they
/// don't.
pub fn is_product_less(one: Pair, two: Pair, three: Pair) -> bool
    ensures { IsTrue result → one.left * two.left * three.left < one.right * two.right * three.right }
{
    let one = one.reduced();
    let two = two.reduced();
    let three = three.reduced();
    let Some(left) = product_of_three(one.left, two.left, three.left) else {
        return false;
    };
    let Some(right) = product_of_three(one.right, two.right, three.right) else {
        return false;
    };
    left.compare(right).is_lt()
}

/// The most that the sum of the products of a column and a row in the ranges can be, where it has 128 bits.
pub fn most_of(ranges: &Ranges, column: &[i128]) -> Option<u128>
    requires middles { length column.now ≤ length ranges.now.middles }
    requires halves { length column.now ≤ length ranges.now.halves }
    ensures { IfSome result (λ m. whole (pos m) ≡ most_of_products (length column.now) ranges.now (λ k. whole (get_or column.now k (pos 0)))) }
{
    let middles = ranges.middles.as_slice();
    let halves = ranges.halves.as_slice();
    let mut middle: i128 = 0;
    let mut rest: u128 = 0;
    for k in 0..column.len() {
        let at_middle = column[k].checked_mul(i128::from(middles[k]))?;
        let within = column[k].unsigned_abs().checked_mul(u128::from(halves[k]))?;
        middle = middle.checked_add(at_middle)?;
        rest = rest.checked_add(within)?;
    }
    let sum = rest.checked_add(middle.unsigned_abs())?;
    Some(sum)
}
