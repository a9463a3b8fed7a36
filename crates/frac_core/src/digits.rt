//! Digits as they are taken in, with the zeros at their end counted apart.
ghost use Rattle.std.specs.Prelude.{◌≡◌, ◌<◌, ◌≤◌, ◌+◌, ◌*◌, ◌^◌, MatchOption};
ghost use Rattle.std.specs.Option.{ForSome};

use crate::bounded::product;

/// Digits as they are taken in: the number `significand * 10^zeros`, whose significand doesn't end
/// in 0.
#[derive(Clone, Copy)]
pub(crate) struct Digits {
    /// `None` once it exceeds the limit.
    pub significand: Option<u128>,
    pub zeros: u128,
    pub limit: u128,
    ghost within_limit: { ForSome significand (λ s. s ≤ limit) },
}

impl Digits {
    ghost use Rattle.std.specs.Prelude.{ℕ, ◌++◌, ◌∷◌, [], List, true, false, length, IfNone, IfSome, OnSome};
    ghost use Rattle.std.specs.Char.{is_ascii_digit};
    ghost use Rattle.std.specs.Str.Parse.{digits_value};
    ghost use Rattle.frac_core.specs.NumberText.{are_digits};
    ghost use Rattle.frac_core.specs.NumberReading.{front, rest, HasRead};

    /// No digit yet.
    pub fn new(limit: u128) -> Digits
        ensures none { HasRead [] result }
        ensures limit { result.limit ≡ limit }
        ensures zeros { result.zeros ≡ 0 }
    {
        Digits {
            significand: Some(0),
            zeros: 0,
            limit,
        }
    }

    /// The digits of a text that is one digit or more, and nothing else.
    pub fn of(text: &[u8], limit: u128) -> Option<Digits>
        ensures none { IfNone result (are_digits text.now ≡ false) }
        ensures digits { OnSome result (are_digits text.now ≡ true) }
        ensures read { IfSome result (HasRead text.now) }
        ensures limit { IfSome result (λ d. d.limit ≡ limit) }
    {
        let mut all = Digits::new(limit);
        let (digits, rest) = all.read(text);
        if digits.is_empty() || !rest.is_empty() {
            None
        } else {
            Some(all)
        }
    }

    /// Takes in the digits that a text begins with, and cuts the text behind them.
    pub fn read<'a>(&mut self, text: &'a [u8]) -> (&'a [u8], &'a [u8])
        requires room { self.old.zeros + length text.now < 2 ^ 65 }
        ensures front { result.0.now ≡ front text.entry.now }
        ensures rest { result.1.now ≡ rest text.entry.now }
        ensures read { (digits : List ℕ) → HasRead digits self.old
            → HasRead (digits ++ front text.entry.now) self.new }
        ensures limit { self.new.limit ≡ self.old.limit }
        ensures room { self.new.zeros ≤ self.old.zeros + length result.0.now }
    {
        let mut count = 0;
        for byte in text {
            if !byte.is_ascii_digit() {
                break;
            }
            self.push(*byte);
            count += 1;
        }
        text.split_at(count)
    }

    // Takes in one more digit, given as its byte.
    fn push(&mut self, byte: u8)
        requires digit { is_ascii_digit byte ≡ true }
        requires room { self.old.zeros < 2 ^ 65 }
        ensures read { (digits : List ℕ) → HasRead digits self.old
            → HasRead (digits ++ byte ∷ []) self.new }
        ensures limit { self.new.limit ≡ self.old.limit }
        ensures room { self.new.zeros ≤ self.old.zeros + 1 }
    {
        if byte == b'0' {
            self.zeros += 1;
        } else {
            let digit = u128::from(byte - b'0');
            self.significand = match self.significand {
                Some(number) => with_digit(number, self.zeros, digit, self.limit),
                None => None,
            };
            self.zeros = 0;
        }
    }

    /// The number of all the digits, or `None` where it exceeds the limit.
    pub fn value(self) -> Option<u128>
        ensures { (digits : List ℕ) → HasRead digits self
            → MatchOption result (self.limit < digits_value 10 digits)
            (λ v. (v ≡ digits_value 10 digits) × (v ≤ self.limit)) }
    {
        times_power(self.significand?, self.zeros, self.limit)
    }
}

/// `number * 10^power`, or `None` where it exceeds the limit. A number above 0 exceeds every limit
/// after 39 turns at most.
pub(crate) fn times_power(number: u128, power: u128, limit: u128) -> Option<u128>
    requires { number ≤ limit }
    ensures { MatchOption result (limit < number * 10 ^ power)
        (λ v. (v ≡ number * 10 ^ power) × (v ≤ limit)) }
{
    if number == 0 {
        return Some(0);
    }
    let mut value = number;
    for _ in 0..power {
        value = product(limit, value, 10)?;
    }
    Some(value)
}

// The number that these zeros and a digit follow, or `None` where it exceeds the limit.
fn with_digit(number: u128, zeros: u128, digit: u128, limit: u128) -> Option<u128>
    requires within { number ≤ limit }
    requires room { zeros < 2 ^ 65 }
    ensures { MatchOption result (limit < number * 10 ^ (zeros + 1) + digit)
        (λ v. (v ≡ number * 10 ^ (zeros + 1) + digit) × (v ≤ limit)) }
{
    let shifted = times_power(number, zeros + 1, limit)?;
    if digit <= limit - shifted {
        Some(shifted + digit)
    } else {
        None
    }
}
