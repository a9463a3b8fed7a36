//! The laws of nested models. No function here does anything: its contract is the law.

ghost use Rattle.nested_test.specs.Laws.{StatisticIsSquare, RestrictedHasDataRows, RestrictedHasFullRank};

use frac_core::Exact;
use loss_model::Problem;

/// The statistic is 12 times a square.
pub fn statistic_is_square()
    ensures { StatisticIsSquare }
{}

/// Without tested columns data rows stay data rows, and independent columns stay independent. So a process over the rest
/// of a problem of full rank isn't stopped by columns that are dependent.
pub fn restricted_is_askable<F: Exact>(full: &Problem<F>)
    ensures rows { RestrictedHasDataRows F.value full.now }
    ensures rank { RestrictedHasFullRank F.value full.now }
{}
