//! A quantile in whole numbers, times a number that all dual values of an end have for a denominator.
ghost use Rattle.std.specs.Prelude.{IfSome};
ghost use Rattle.rational_laws.specs.Fraction.{rational};
ghost use Rattle.cert_sums.specs.Slopes.{IsReach};

use crate::duals::{End, has_reach};
use crate::scale::{answer_scaled, common_scale};
use crate::table::Table;

/// A common denominator of a quantile and of the basic dual values there, and the quantile times that.
#[derive(Drop)]
pub(crate) struct Reach {
    pub(crate) scale: u128,
    pub(crate) at: i128,
}

/// That of an end, where there is room for the line of each row.
pub(crate) fn reach_of(table: &Table, end: End<'_>) -> Option<Reach>
    ensures { IfSome result (IsReach table.now.cost_limit (rational end.entry.theta.now)) }
{
    let scale = common_scale(end.theta.denominator().narrow()?, end.basic.as_slice())?;
    let at = answer_scaled(end.theta, scale)?;
    if !has_reach(table.cost_limit, scale, at) {
        return None;
    }
    Some(Reach { scale, at })
}
