//! The laws of inputs and faults. No function here does anything: its contract is the law.

ghost use Rattle.run_laws.specs.Faults.{GeneratedTablesHaveNoFault, InputsHaveNoFault, OneInputFault, PlainInputsHaveNoFault, PredictionsHaveNoFault, TestedHaveNoFault};

use formula_grammar::{one_formula, one_outcome};

/// Where the bytes of a job are an input within the limits of rows and columns, they have no fault: as a
/// table, of the formula over its names, of the design, of what its smooths add, or of the problem. So each of
/// these refusals comes only where there is no such input.
pub fn inputs_have_no_fault()
    ensures { InputsHaveNoFault }
{
    one_formula();
    one_outcome();
}

/// So it is of a job that takes no smooths, where the input has none: each refusal of `read_plain` comes only where
/// there is no such input.
pub fn plain_inputs_have_no_fault()
    ensures { PlainInputsHaveNoFault }
{
    one_formula();
    one_outcome();
}

/// Where the bytes of a job are an input of a rank test, whose tested columns are columns and leave one, they have no
/// fault: each refusal of `read_tested` comes only where there is no such input.
pub fn tested_have_no_fault()
    ensures { TestedHaveNoFault }
{
    one_formula();
    one_outcome();
}

/// Where the bytes of a job ask for predictions, and their problem is within the limits of rows and columns, they have no
/// fault: neither as an input without smooths, nor in the records that are predicted or their rows. So each refusal of
/// `read_predictions` comes only where there are no such predictions.
pub fn predictions_have_no_fault()
    ensures { PredictionsHaveNoFault }
{
    one_formula();
    one_outcome();
}

/// The bytes of a job have one fault at most; so the one that is named is the first.
pub fn one_input_fault()
    ensures { OneInputFault }
{
    one_formula();
    one_outcome();
}

/// A generated table has no fault as a table, and none by the formula that the job `sample` fits to it: of the
/// design, of what smooths add, or of the problem. So its problem stands whatever number it is made from.
pub fn generated_tables_have_no_fault()
    ensures { GeneratedTablesHaveNoFault }
{
    one_formula();
    one_outcome();
}
