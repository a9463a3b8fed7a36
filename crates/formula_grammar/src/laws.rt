//! Laws of the grammar: a formula has one reading, tokens are a formula or have one first fault, and limits are kept.
ghost use Rattle.formula_grammar.specs.Grammar.{OneFormula};
ghost use Rattle.formula_grammar.specs.Faults.{FormulaOrFault, FormulasKeepLimits, NoFormulaHasFaults, OneFault};

/// The grammar is unambiguous: no tokens are those of two formulas.
pub fn one_formula()
    ensures { OneFormula }
{}

/// The tokens of a text are one formula, or they have one first fault.
pub fn one_outcome()
    ensures some { FormulaOrFault }
    ensures fault { OneFault }
    ensures either { NoFormulaHasFaults }
{}

/// What is read keeps every limit: at most 64 parentheses are open at once, exponents are 1 to 8,
/// and `Frac128` holds every other number.
pub fn formulas_keep_limits()
    ensures { FormulasKeepLimits }
{}
