//! The greatest common divisor, by the binary algorithm (Knuth, TAOCP 4.5.2, Algorithm B).

ghost use Rattle.std.specs.Prelude.{◌≡◌, ◌<◌, ◌%◌};
ghost use Rattle.frac_core.specs.Gcd.{gcd};

/// The greatest common divisor; of 0 and a number it is that number.
#[tactic(auto, using(crate::proofs::Binary::gcd_of_one, crate::specs::GcdLaws::gcd_pos))]
#[inline(always)]
pub(crate) fn common_divisor(a: u128, b: u128) -> u128
    ensures value { result ≡ gcd a b }
    ensures positive { 0 < b → 0 < result }
{
    if a == 1 || b == 1 {
        1
    } else if a <= u64::MAX as u128 && b <= u64::MAX as u128 {
        narrow_divisor(a as u64, b as u64) as u128
    } else {
        wide_divisor(a, b)
    }
}

// The same of numbers of 64 bits.
fn narrow_divisor(a: u64, b: u64) -> u64
    ensures { result ≡ gcd a b }
{
    if a == 0 {
        return b;
    }
    if b == 0 {
        return a;
    }
    let twos = a.trailing_zeros();
    let other_twos = b.trailing_zeros();
    narrow_odd_divisor(a >> twos, b >> other_twos) << twos.min(other_twos)
}

// The same of numbers of which one has more than 64 bits.
fn wide_divisor(a: u128, b: u128) -> u128
    ensures { result ≡ gcd a b }
{
    if a == 0 {
        return b;
    }
    if b == 0 {
        return a;
    }
    let twos = a.trailing_zeros();
    let other_twos = b.trailing_zeros();
    wide_odd_divisor(a >> twos, b >> other_twos) << twos.min(other_twos)
}

// The same of odd numbers of 64 bits: the greater one is replaced by the odd part of the gap.
fn narrow_odd_divisor(a: u64, b: u64) -> u64
    requires left { a % 2 ≡ 1 }
    requires right { b % 2 ≡ 1 }
    ensures { result ≡ gcd a b }
{
    let mut u = a;
    let mut v = b;
    while u != v {
        let gap = u.abs_diff(v);
        u = u.min(v);
        v = gap >> gap.trailing_zeros();
    }
    u
}

// The same of odd numbers, until both have 64 bits.
fn wide_odd_divisor(a: u128, b: u128) -> u128
    requires left { a % 2 ≡ 1 }
    requires right { b % 2 ≡ 1 }
    ensures { result ≡ gcd a b }
{
    let mut u = a;
    let mut v = b;
    while u > u64::MAX as u128 || v > u64::MAX as u128 {
        let gap = u.abs_diff(v);
        if gap == 0 {
            return u;
        }
        u = u.min(v);
        v = gap >> gap.trailing_zeros();
    }
    narrow_odd_divisor(u as u64, v as u64) as u128
}
