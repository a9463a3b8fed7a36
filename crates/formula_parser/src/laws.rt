//! Laws of formulas. The functions do nothing: their contracts are the laws.

ghost use Rattle.formula_parser.specs.ArithTrees.{PartsAreArithmetics};
ghost use Rattle.formula_parser.specs.Laws.{ArithmeticsAreHeld, FormulasAreCountable, LambdasAreNotNegative};

/// No lambda of a formula is negative: it is a number text without a sign.
pub fn lambdas_are_not_negative()
    ensures { LambdasAreNotNegative }
{}

/// What the tokens and the code of an arithmetic say is the text, the names and the code of the
/// arithmetic that its tree is.
pub fn parts_are_arithmetics()
    ensures { PartsAreArithmetics }
{}

/// Each arithmetic of a formula holds the text, the names and the code of one arithmetic whose
/// exponents are 1 to 8, and has fewer than 2^32 numbered operations, so that it can be evaluated; its
/// names are columns.
pub fn arithmetics_are_held()
    ensures { ArithmeticsAreHeld }
{}

/// The variables of each term are fewer than 2^32 and the offsets fewer than 2^31, where a formula of
/// fewer than 2^31 bytes was read for at most 1,024 names.
pub fn formulas_are_countable()
    ensures { FormulasAreCountable }
{}
