//! Jobs at once, by halves of their list.
ghost use Rattle.std.specs.Prelude.{◌≡◌, ◌<◌, ◌++◌, IfOk};
ghost use Rattle.std.specs.List.{AllZip};
ghost use Rattle.std.specs.Thread.{IsSend, IsSync};

use crate::Work;
use frac_core::OutOfMemory;
use std::alloc::Global;
use std::thread::{Threads, join};

/// How many times a list of jobs is halved at most, so that there are at most 64 threads.
const MOST_HALVINGS: u32 = 6;

/// Does the jobs and gives their answers in the jobs' order. The list is halved at most six times, and what
/// isn't halved further is done job after job; a list of two jobs is halved. Where no memory is found, the jobs
/// that are left and the answers are dropped.
pub fn run_jobs<R: Threads + Sync, J: Work>(
    rt: &R,
    alloc: Global,
    jobs: Vec<J>,
) -> Result<Vec<J::Answer>, OutOfMemory>
    ensures { IfOk result (λ answers. AllZip J.answers jobs.items answers.items) }
{
    in_halves(rt, alloc, MOST_HALVINGS, jobs)
}

#[cycle(halves)]
fn in_halves<R: Threads + Sync, J: Work>(
    rt: &R,
    alloc: Global,
    halvings: u32,
    mut low: Vec<J>,
) -> Result<Vec<J::Answer>, OutOfMemory>
    ensures { IfOk result (λ answers. AllZip J.answers low.items answers.items) }
{
    if halvings == 0 || low.len() < 2 {
        return in_turn(alloc, low);
    }
    let Ok(high) = low.split_off(low.len() / 2) else {
        return Err(OutOfMemory);
    };
    let first = move || -> Result<Vec<J::Answer>, OutOfMemory>
        requires { IsSync R.row × IsSend J.row × (0 < halvings) }
        ensures { IfOk result (λ answers. AllZip J.answers low.items answers.items) }
    { in_halves(rt, alloc, halvings - 1, low) };
    let second = move || -> Result<Vec<J::Answer>, OutOfMemory>
        requires { IsSync R.row × IsSend J.row × (0 < halvings) }
        ensures { IfOk result (λ answers. AllZip J.answers high.items answers.items) }
    { in_halves(rt, alloc, halvings - 1, high) };
    let (answers, rest) = join(rt, first, second);
    appended(answers?, rest?)
}

/// The answers of the first half, and then those of the second.
fn appended<T: Drop>(mut answers: Vec<T>, mut rest: Vec<T>) -> Result<Vec<T>, OutOfMemory>
    ensures { IfOk result (λ all. all.items ≡ answers.items ++ rest.items) }
{
    match answers.append(&mut rest) {
        Ok(()) => Ok(answers),
        Err(_) => Err(OutOfMemory),
    }
}

/// Does the jobs one after the other.
fn in_turn<J: Work>(alloc: Global, jobs: Vec<J>) -> Result<Vec<J::Answer>, OutOfMemory>
    ensures { IfOk result (λ answers. AllZip J.answers jobs.items answers.items) }
{
    let mut answers = Vec::new(alloc);
    for job in jobs {
        match answers.push(job.work()) {
            Ok(()) => {}
            Err(_) => return Err(OutOfMemory),
        }
    }
    Ok(answers)
}
