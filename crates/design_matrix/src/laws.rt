//! The laws of the levels and of the arithmetics. The functions do nothing: their contracts are the laws.

ghost use Rattle.design_matrix.specs.Laws.{ArithmeticsHaveTheirValues, LevelsOfTexts, LevelsOfNumbers};

/// The levels of a factor are its distinct cells in ascending order: texts by their bytes, numbers by
/// their values.
pub fn distinct_levels()
    ensures texts { LevelsOfTexts }
    ensures numbers { LevelsOfNumbers }
{}

/// What the code of an arithmetic comes to in a record is the value of the arithmetic that it is of, and
/// its operations are those of that arithmetic.
pub fn arithmetics_have_their_values()
    ensures { ArithmeticsHaveTheirValues }
{}
