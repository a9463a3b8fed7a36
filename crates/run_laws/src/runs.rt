//! The laws of a run. Each function does nothing: its contract is the law.

ghost use Rattle.run_laws.specs.Completeness.{Completeness, SampleIsAnswered, TestIsAnswered, PathIsAnswered, CheckIsAnswered, FaultIsAnswered, PredictionFaultIsAnswered, TestFaultIsAnswered, PathFaultIsAnswered, LimitIsAnswered, TestLimitIsAnswered, PathLimitIsAnswered, AmpleLimitIsNeverReached, DependenceIsAnswered, TestDependenceIsAnswered};
ghost use Rattle.run_laws.specs.NeededOutcomes.{LimitIsNeeded, OverflowIsNeeded, DependenceIsNeeded, LengthIsNeeded};
ghost use Rattle.run_laws.specs.PathReports.{PathIsLeast};
ghost use Rattle.run_laws.specs.TestReports.{TestIsRight};

use crate::inputs::{
    generated_tables_have_no_fault, inputs_have_no_fault, plain_inputs_have_no_fault,
    predictions_have_no_fault, tested_have_no_fault,
};
use cert_text::same_content;
use lambda_path::laws::{path, path_is_askable};
use nested_test::laws::statistic_is_square;

/// A run that stops for a limit, for dependent columns or for a certificate that is too long had to: the lawful trail of
/// the problem, or of an interval by the critical value of the words, reaches the limit, which is less than the bases of its
/// parts; the columns are dependent; the words ask for a certificate, and it is too long. Of one that stops for an overflow
/// less is true: the operation that it names overflows on the operands that it names.
pub fn needed()
    ensures limit { LimitIsNeeded }
    ensures overflow { OverflowIsNeeded }
    ensures dependence { DependenceIsNeeded }
    ensures length { LengthIsNeeded }
{
    path_is_askable();
}

/// While source and sinks don't fail, a job whose input is well formed and of full rank is answered, by its
/// report, by its limit or by an overflow, save for memory. Where a trail reaches the limit of a fit or of a path, it stops
/// for that, or by an overflow of its process or of a path's costs, and never where the limit is ample. Where the columns
/// of a fit are dependent, it stops for that, or by an overflow in the start. Where the bytes have a fault it is answered
/// by none of these: such a refusal comes exactly where there is one. So a
/// certificate whose conditions are all true is accepted, save for memory. A generated table of full rank is answered as a job whose input is well formed: its bytes have no fault.
/// So is a rank test, where all columns are independent and the tested ones leave one; and a path in lambda, of whose
/// columns nothing is asked: with the penalties they are independent.
pub fn complete()
    ensures answered { Completeness }
    ensures generated { SampleIsAnswered }
    ensures test { TestIsAnswered }
    ensures path { PathIsAnswered }
    ensures faults { FaultIsAnswered }
    ensures predictions { PredictionFaultIsAnswered }
    ensures test_faults { TestFaultIsAnswered }
    ensures path_faults { PathFaultIsAnswered }
    ensures checked { CheckIsAnswered }
    ensures limited { LimitIsAnswered }
    ensures test_limited { TestLimitIsAnswered }
    ensures path_limited { PathLimitIsAnswered }
    ensures ample { AmpleLimitIsNeverReached }
    ensures dependent { DependenceIsAnswered }
    ensures test_dependent { TestDependenceIsAnswered }
{
    same_content();
    inputs_have_no_fault();
    predictions_have_no_fault();
    generated_tables_have_no_fault();
    tested_have_no_fault();
    plain_inputs_have_no_fault();
    path_is_askable();
}

/// A printed rank test has the scores of the tested columns and the statistic of the nested models, by the Wilcoxon scores
/// of the right process without these columns (Gutenbrunner, Jurečková, Koenker and Portnoy 1993); it is not negative.
pub fn test_reports()
    ensures { TestIsRight }
{
    statistic_is_square();
}

/// A printed path in lambda loses least at every lambda of its range, and the sum of the absolute values of its
/// penalised coefficients never rises from one segment to the next.
pub fn path_reports()
    ensures { PathIsLeast }
{
    path();
}
