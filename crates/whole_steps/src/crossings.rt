//! The next breakpoint of a walk: where a dual value of the basis first passes beyond a bound.
ghost use Rattle.std.specs.Prelude.{◌≡◌, ◌<◌, ◌≤◌, length, IfOk, pos};
ghost use Rattle.std.specs.Ordering.{is_lt};
ghost use Rattle.rational_laws.specs.Fraction.{rational};
ghost use Rattle.rational_laws.specs.Order.{cmp_ℚ};
ghost use Rattle.tableau_model.specs.Crossings.{IsSooner, IsCrossingAt, IsFirstOf};
ghost use Rattle.whole_steps.specs.Stations.{IsStation};
ghost use Rattle.whole_steps.specs.Crossings.{quotient_value, HasDivisor, falls_at, quotient_at, IsCrossingTowards};

use crate::station::Station;
use basis_model::Part;
use frac_core::Exact;
use pivot_model::Direction;
use tableau_model::Breakpoint;
use whole_inverse::Obstacle;
use whole_rows::value_over;
use wide_int::Natural;

/// The quotient `over / under`.
#[derive(Clone, Copy)]
pub struct Quotient {
    pub over: u128,
    pub under: u128,
}

/// The number, where it has 127 bits.
fn narrow(n: u128) -> Result<i128, Obstacle>
    ensures { IfOk result (λ m. m ≡ pos n) }
{
    if n > i128::MAX as u128 {
        return Err(Obstacle::TooWide);
    }
    Ok(n as i128)
}

/// A quotient as a fraction.
pub fn fraction_of<F: Exact>(quotient: Quotient) -> Result<F, Obstacle>
    ensures { IfOk result (λ r. rational (F.value r) ≡ rational (quotient_value quotient)) }
{
    let over = narrow(quotient.over)?;
    let under = narrow(quotient.under)?;
    let value = value_over(over, under)?;
    Ok(value)
}

/// Whether a quotient is less than another.
fn is_before(one: Quotient, two: Quotient) -> bool
    requires one { 1 ≤ one.under }
    requires two { 1 ≤ two.under }
    ensures { result ≡ is_lt (cmp_ℚ (rational (quotient_value one)) (rational (quotient_value two))) }
{
    let first = Natural::product(one.over, two.under);
    let second = Natural::product(two.over, one.under);
    first.compare(second).is_lt()
}

/// The breakpoint of the two that comes first, and the first of equal ones. What isn't there comes after all others.
pub fn sooner(
    first: Option<Breakpoint<Quotient>>,
    second: Option<Breakpoint<Quotient>>,
) -> Option<Breakpoint<Quotient>>
    requires first { HasDivisor first }
    requires second { HasDivisor second }
    ensures sooner { IsSooner quotient_value first second result }
    ensures divisor { HasDivisor result }
{
    match (first, second) {
        (Some(one), Some(two)) => {
            if is_before(two.theta, one.theta) {
                Some(two)
            } else {
                Some(one)
            }
        }
        (None, two) => two,
        (one, None) => one,
    }
}

impl<'a> Station<'a> {
    /// Where the dual value at a position meets its bound in a direction, if it passes beyond it.
    fn crossing_towards(
        &self,
        position: u32,
        direction: Direction,
    ) -> Result<Option<Breakpoint<Quotient>>, Obstacle>
        requires station { IsStation self.now }
        requires position { position < length self.now.basis.now.inverse.now.columns }
        ensures crossing { IfOk result (IsCrossingTowards self.now position direction) }
        ensures divisor { IfOk result HasDivisor }
    {
        let fall = self.slope_number(position, Part::Linear, direction)?;
        if fall >= 0 {
            return Ok(None);
        }
        let level = self.slope_number(position, Part::Constant, direction)?;
        if level < 0 {
            return Err(Obstacle::TooWide);
        }
        Ok(Some(Breakpoint {
            theta: Quotient {
                over: level.unsigned_abs(),
                under: fall.unsigned_abs(),
            },
            position,
            direction,
        }))
    }

    /// Where the dual value at a position first passes beyond one of its bounds.
    fn crossing_at(&self, position: u32) -> Result<Option<Breakpoint<Quotient>>, Obstacle>
        requires station { IsStation self.now }
        requires position { position < length self.now.basis.now.inverse.now.columns }
        ensures exact { IfOk result (IsCrossingAt quotient_value (falls_at self.now) (quotient_at self.now) position) }
        ensures divisor { IfOk result HasDivisor }
    {
        let up = self.crossing_towards(position, Direction::Upward)?;
        let down = self.crossing_towards(position, Direction::Downward)?;
        Ok(sooner(up, down))
    }

    /// The first crossing of all, at the least position of equal ones; none where no dual value passes beyond a bound.
    pub fn first_crossing(&self, columns: u32) -> Result<Option<Breakpoint<Quotient>>, Obstacle>
        requires station { IsStation self.now }
        requires columns { columns ≡ length self.now.basis.now.inverse.now.columns }
        ensures { IfOk result (IsFirstOf quotient_value (falls_at self.now) (quotient_at self.now) columns) }
    {
        let mut least = None;
        for position in 0..columns {
            match self.crossing_at(position) {
                Ok(next) => least = sooner(least, next),
                Err(obstacle) => return Err(obstacle),
            }
        }
        Ok(least)
    }
}
