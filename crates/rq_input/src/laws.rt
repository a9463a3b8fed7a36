//! The law of losses. The function does nothing: its contract is the law.

ghost use Rattle.rq_input.specs.Laws.{LossIsVariation};

use formula_parser::laws::lambdas_are_not_negative;
use rq_program::laws::loss_is_penalised;
use tv_penalty::laws::penalty_is_variation;

/// The problem of an input loses the weighted check loss of its records, and for each smooth lambda
/// times the total variation of the slope of the piecewise linear function through the knots
/// (Koenker 2005, chapter 1; Koenker, Ng and Portnoy 1994).
pub fn loss_is_variation()
    ensures { LossIsVariation }
{
    loss_is_penalised();
    penalty_is_variation();
    lambdas_are_not_negative();
}
