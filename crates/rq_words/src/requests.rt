//! The job that a command's options ask for.
ghost use Rattle.std.specs.Prelude.{◌≡◌, ◌⊎◌, Err, IfOk, codes, map, option_map};
ghost use Rattle.std.specs.Result.{result_map_both};
ghost use Rattle.rq_words.specs.Requests.{fit_request, option_numbers, path_request, request_of, request_or_fault, sample_request, test_request};
ghost use Rattle.rq_words.specs.Words.{checked, coding, column_of, fit, option, path, request_for, sample, test};

use crate::command::Kind;
use crate::numbers::Numbers;
use crate::options::Options;
use crate::{FitJob, Job, PathJob, RankAsk, SampleJob, TestJob, WordFault};
use contrasts::Coding;
use frac_core::{List, OutOfMemory, Text};
use std::alloc::Global;

#[tactic(auto, unfolding(crate::specs::Words::coding))]
fn coding_named(name: &str) -> Option<Coding>
    ensures { result ≡ coding name.now }
{
    match name {
        "treatment" => Some(Coding::Treatment),
        "sas" => Some(Coding::Sas),
        "sum" => Some(Coding::Sum),
        "helmert" => Some(Coding::Helmert),
        _ => None,
    }
}

fn chosen_coding(options: &Options) -> Result<Coding, WordFault>
    ensures { result
        ≡ option WordFault.BadContrasts options.now (codes "contrasts") Coding.Treatment coding }
{
    match options.get("contrasts") {
        None => Ok(Coding::Treatment),
        Some(name) => coding_named(name).ok_or(WordFault::BadContrasts),
    }
}

fn copied(alloc: Global, text: Option<&str>) -> Result<Option<Text>, OutOfMemory>
    ensures { IfOk result (λ copy. copy ≡ option_map (λ t. t.now) text.entry) }
{
    match text {
        None => Ok(None),
        Some(text) => Ok(Some(Text::new(alloc, text)?)),
    }
}

fn fit_of(
    alloc: Global,
    options: &Options,
    numbers: Numbers,
    coding: Coding,
) -> Result<FitJob, OutOfMemory>
    ensures { IfOk result (λ job.
        fit_request job ≡ fit options.now (option_numbers numbers) coding) }
{
    let formula = Text::new(alloc, options.get("formula").unwrap_or(""))?;
    let weights = copied(alloc, options.get("weights"))?;
    let rank = match (numbers.crit, numbers.taus) {
        (Some(crit), Some(taus)) => Some(RankAsk { crit, taus }),
        _ => None,
    };
    Ok(FitJob {
        formula,
        lo: numbers.lo,
        hi: numbers.hi,
        weights,
        coding,
        limit: numbers.limit,
        rank,
    })
}

// The column of a number that counts from 1, and what stands for that of the number 0.
fn column_of(number: u32) -> u32
    ensures { result ≡ column_of number }
{
    if number == 0 { u32::MAX } else { number - 1 }
}

fn columns_of(alloc: Global, numbers: &[u32]) -> Result<List<u32>, OutOfMemory>
    ensures { IfOk result (λ columns. columns ≡ map column_of numbers.now) }
{
    let mut columns = List::new(alloc);
    for number in numbers {
        columns.add(column_of(*number))?;
    }
    Ok(columns)
}

fn test_of(
    alloc: Global,
    options: &Options,
    numbers: Numbers,
    coding: Coding,
) -> Result<TestJob, OutOfMemory>
    ensures { IfOk result (λ job.
        test_request job ≡ test options.now (option_numbers numbers) coding) }
{
    let tested = columns_of(alloc, numbers.tested.as_slice())?;
    let fit = fit_of(alloc, options, numbers.unranked().over_all(), coding)?;
    Ok(TestJob { fit, tested })
}

fn path_of(
    alloc: Global,
    options: &Options,
    numbers: Numbers,
    coding: Coding,
) -> Result<PathJob, OutOfMemory>
    ensures { IfOk result (λ job.
        path_request job ≡ path options.now (option_numbers numbers) coding) }
{
    let tau = numbers.tau;
    let fit = fit_of(alloc, options, numbers.unranked(), coding)?;
    Ok(PathJob { fit, tau })
}

fn sample_of(numbers: &Numbers) -> SampleJob
    ensures { sample_request result ≡ sample (option_numbers numbers.now) }
{
    SampleJob {
        number: numbers.number,
        rows: numbers.rows,
        columns: numbers.columns,
        lo: numbers.lo,
        hi: numbers.hi,
        limit: numbers.limit,
    }
}

fn made_of(
    alloc: Global,
    kind: Kind,
    options: &Options,
    numbers: Numbers,
    coding: Coding,
) -> Result<Job, OutOfMemory>
    ensures { IfOk result (λ job.
        request_of job ≡ request_for kind options.now (option_numbers numbers) coding) }
{
    match kind {
        Kind::Process => fit_of(alloc, options, numbers, coding).map(Job::Process),
        Kind::Ranks => fit_of(alloc, options, numbers.over_all(), coding).map(Job::Ranks),
        Kind::Certify => fit_of(alloc, options, numbers, coding).map(Job::Certify),
        Kind::Check => Ok(Job::Check),
        Kind::Sample => Ok(Job::Sample(sample_of(&numbers))),
        Kind::Test => test_of(alloc, options, numbers, coding).map(Job::Test),
        Kind::Predict => fit_of(alloc, options, numbers.unranked(), coding).map(Job::Predict),
        Kind::Path => path_of(alloc, options, numbers, coding).map(Job::Path),
    }
}

/// The job that a command's options ask for, or the first fault of the checks.
#[tactic(auto, unfolding(crate::specs::Words::checked))]
pub(crate) fn job_of(alloc: Global, kind: Kind, options: &Options) -> Result<Job, WordFault>
    ensures { (result ≡ Err WordFault.OutOfMemory)
        ⊎ (request_or_fault result ≡ checked kind options.now) }
{
    let numbers = Numbers::read(alloc, options)?;
    let coding = chosen_coding(options)?;
    if let Some(fault) = numbers.fault(kind) {
        return Err(fault);
    }
    match made_of(alloc, kind, options, numbers, coding) {
        Ok(job) => Ok(job),
        Err(OutOfMemory) => Err(WordFault::OutOfMemory),
    }
}
