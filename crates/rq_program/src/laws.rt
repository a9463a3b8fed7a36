//! The law of losses. The function does nothing: its contract is the law.

ghost use Rattle.rq_program.specs.Losses.{LossIsPenalised};

/// What the problem of a design and of what smooths add to it loses is the weighted check loss of the
/// design's records and what the penalties cost (Koenker 2005, chapter 1; Koenker, Ng and Portnoy
/// 1994).
pub fn loss_is_penalised()
    ensures { LossIsPenalised }
{}
