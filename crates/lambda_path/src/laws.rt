//! The laws of the path in lambda. No function here does anything: its contract is the law.

ghost use Rattle.lambda_path.specs.Laws.{PathLoss, SumFalls, SumNeverRises, PathHasFullRank, PathHasCosts};

/// What a path problem loses at a lambda, and that the sum of the absolute coefficients never rises along the path.
pub fn path()
    ensures loss { PathLoss }
    ensures falls { SumFalls }
    ensures segments { SumNeverRises }
{}

/// A path problem has full rank, where its first row is one of an intercept or all columns are penalised; and lawful
/// costs at every lambda above 0. So a process over such a range asks for nothing more, and no columns are dependent.
pub fn path_is_askable()
    ensures rank { PathHasFullRank }
    ensures costs { PathHasCosts }
{}
