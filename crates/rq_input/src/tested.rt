//! The input of a rank test, whose tested columns there are.
ghost use Rattle.std.specs.Prelude.{◌≡◌, ◌≤◌, ◌<◌, ◌^◌, ℕ, List as list, length, map, true, IfOk, IfErr};
ghost use Rattle.rq_words.specs.Requests.{given_number as given_number_of};
ghost use Rattle.rq_words.specs.Words.{ascends};
ghost use Rattle.rq_input.specs.Rows.{HasRows};
ghost use Rattle.rq_input.specs.Tested.{HasTestedCause, IsTested, first_missing as first_missing_of};

use crate::input::{Input, read_input};
use report_text::{Halt, Refusal};
use rq_words::TestJob;
use std::alloc::Global;

// The number of a tested column as it was given.
fn given_number(column: u32) -> u32
    ensures { result ≡ given_number_of column }
{
    if column == u32::MAX { 0 } else { column + 1 }
}

// The number of the first tested column that is none of so many.
fn first_missing(columns: u32, tested: &[u32]) -> Option<u32>
    ensures { result ≡ first_missing_of columns tested.now }
{
    for column in tested {
        if columns <= *column {
            return Some(given_number(*column));
        }
    }
    None
}

/// The input of a rank test, from at most 2^26 bytes. Its formula has no smooth, so that all rows are data rows.
///
/// `Refused` is the first fault, as of `read_input` where ranks are asked for; then `NoSuchColumn` for the first tested
/// column that isn't one of the problem's, with its number as it was given, and `AllTested` exactly where every column
/// is tested. `OutOfMemory` may come at any step, and no other halt comes.
pub fn read_tested(alloc: Global, job: &TestJob, bytes: &[u8]) -> Result<Input, Halt>
    requires long { length job.now.fit.formula < 2 ^ 31 }
    requires short { length bytes.now ≤ 2 ^ 26 }
    requires ascending { ascends (map given_number_of job.now.tested) ≡ true }
    ensures is { IfOk result (IsTested job.now bytes.now) }
    ensures rows { IfOk result HasRows }
    ensures unpenalised { IfOk result (λ input. length input.smoothing.rows ≡ 0) }
    ensures cause { IfErr result (HasTestedCause job.now bytes.now) }
{
    let input = match read_input(alloc, &job.fit, true, bytes) {
        Ok(input) => input,
        Err(halt) => return Err(halt),
    };
    let columns = input.problem.columns;
    let tested = job.tested.as_slice();
    if let Some(column) = first_missing(columns, tested) {
        drop(input);
        return Err(Halt::Refused(Refusal::NoSuchColumn { column }));
    }
    if tested.len() == columns as usize {
        drop(input);
        return Err(Halt::Refused(Refusal::AllTested));
    }
    Ok(input)
}
