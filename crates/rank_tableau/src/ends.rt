//! The dual values where the column weighs so much, as fractions.
ghost use Rattle.std.specs.Prelude.{◌≡◌, ◌<◌, IfOk};
ghost use Rattle.rational_laws.specs.Fraction.{rational};
ghost use Rattle.rational_laws.specs.Rational.{◌*ℚ◌};
ghost use Rattle.pivot_model.specs.Results.{IsVertexAt};
ghost use Rattle.rank_walk_model.specs.Ends.{AreValuesOf};
ghost use Rattle.whole_rows.specs.Wholes.{factor_at, factor_value, IsPositive};
ghost use Rattle.whole_steps.specs.Quantiles.{IsQuantile, theta_of};
ghost use Rattle.whole_tableau.specs.Kept.{IsKept, place};
ghost use Rattle.rank_tableau.specs.Ends.{IsWeighing, weighed_value, weighed_row};

use crate::course::Course;
use crate::numbers::{dual_number, scale_number, speed_number};
use frac_core::{Exact, List};
use loss_model::Vertex;
use ratio::Ratio;
use tableau_model::position_of;
use whole_inverse::Obstacle;
use whole_rows::{Factor, value_over};
use whole_steps::Quantile;
use whole_tableau::{Reading, WholeTableau};
use wide_int::{Divisor, Wide};

/// The product of two fractions.
pub(crate) fn product<F: Exact>(a: F, b: F) -> Result<F, Obstacle>
    ensures { IfOk result (λ r. rational (F.value r) ≡ rational (F.value a) *ℚ rational (F.value b)) }
{
    match a.try_mul(b) {
        Ok(product) => Ok(product),
        Err(_) => Err(Obstacle::TooWide),
    }
}

/// How the dual values where the column weighs so much are read from their numbers.
fn weighing<F: Exact>(
    tableau: &WholeTableau<'_, F>,
    theta: Quantile<i128>,
    factor: Factor<i128>,
    weight: F,
) -> Result<Reading<F>, Obstacle>
    requires positive { IsPositive factor }
    ensures { IfOk result (IsWeighing F.value tableau.now theta factor weight) }
{
    let cost = tableau.setting().wholes.cost;
    let costs: F = value_over(cost.over, cost.under)?;
    let column: F = value_over(factor.over, factor.under)?;
    let first = product(weight, costs)?;
    let whole = product(first, column)?;
    let denominator = scale_number(tableau, theta)?;
    Ok(Reading {
        theta: whole,
        denominator: Divisor::of(denominator),
        factor: costs,
    })
}

/// The dual value at a position, where the column weighs so much.
pub(crate) fn weighed<F: Exact>(
    tableau: &WholeTableau<'_, F>,
    course: &Course<F>,
    factor: Factor<i128>,
    weight: F,
    position: u32,
) -> Result<Ratio, Obstacle>
    requires kept { IsKept F.value tableau.now }
    requires column { course.now.column < tableau.now.problem.columns }
    requires position { position < tableau.now.problem.columns }
    requires factor { factor_value factor ≡ factor_at tableau.now.setting.wholes.factors course.now.column }
    requires positive { IsPositive factor }
    ensures { IfOk result (λ e. rational e ≡ weighed_value F.value (place F.value tableau.now) course.now weight position) }
{
    let theta = Quantile::<i128>::of(course.tau)?;
    let reading = weighing(tableau, theta, factor, weight)?;
    let dual = dual_number(tableau, theta, position)?;
    let speed = speed_number(tableau, course.column, theta, position)?;
    let constant = Wide::of(dual);
    let linear = Wide::of(speed);
    let number = reading.value(constant, linear)?;
    let value = Ratio::widen(tableau.alloc(), number)?;
    Ok(value)
}

/// The dual values of the rows of the vertex, where the column weighs so much.
pub(crate) fn basic_values<F: Exact>(
    tableau: &WholeTableau<'_, F>,
    course: &Course<F>,
    factor: Factor<i128>,
    vertex: &Vertex,
    weight: F,
) -> Result<List<Ratio>, Obstacle>
    requires kept { IsKept F.value tableau.now }
    requires column { course.now.column < tableau.now.problem.columns }
    requires factor { factor_value factor ≡ factor_at tableau.now.setting.wholes.factors course.now.column }
    requires positive { IsPositive factor }
    requires vertex { IsVertexAt F.value tableau.now.problem tableau.now.rows (place F.value tableau.now).inverse vertex.now }
    ensures { IfOk result (AreValuesOf vertex.now (weighed_row F.value (place F.value tableau.now) course.now weight)) }
{
    let rows = tableau.basis().rows.as_slice();
    let sorted = vertex.basis.rows.as_slice();
    let mut basic = List::new(tableau.alloc());
    for k in 0..sorted.len() {
        let position = position_of(rows, sorted[k]) as u32;
        let value = weighed(tableau, course, factor, weight, position)?;
        basic.add(value)?;
    }
    Ok(basic)
}
