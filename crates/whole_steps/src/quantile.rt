//! Numbers that are affine in the quantile, at one quantile.
ghost use Rattle.std.specs.Prelude.{◌≡◌, ℤ, ◌+ℤ◌, ◌*ℤ◌, IfOk};
ghost use Rattle.rational_laws.specs.Fraction.{rational};
ghost use Rattle.whole_steps.specs.Quantiles.{IsQuantile, theta_of};

use frac_core::Exact;
use whole_inverse::Obstacle;
use wide_int::Wide;

/// The quantile `over / under`.
#[derive(Clone, Copy)]
pub struct Quantile<M> {
    pub over: M,
    pub under: M,
}

impl Quantile<i128> {
    /// A quantile by its two parts.
    pub fn of<F: Exact>(theta: F) -> Result<Quantile<i128>, Obstacle>
        ensures positive { IfOk result IsQuantile }
        ensures value { IfOk result (λ q. theta_of q ≡ rational (F.value theta)) }
    {
        let under = theta.denominator();
        if under < 1 {
            return Err(Obstacle::TooWide);
        }
        Ok(Quantile {
            over: theta.numerator(),
            under,
        })
    }

    /// The number `constant + linear * theta`, times the quantile's second part.
    pub fn number(self, constant: i128, linear: i128) -> Result<i128, Obstacle>
        ensures { IfOk result (λ n. n ≡ (constant *ℤ self.under) +ℤ (linear *ℤ self.over)) }
    {
        let first = Wide::product(constant, self.under);
        let second = Wide::product(linear, self.over);
        match first.plus(second) {
            Some(sum) => match sum.narrow() {
                Some(number) => Ok(number),
                None => Err(Obstacle::TooWide),
            },
            None => Err(Obstacle::TooWide),
        }
    }
}
