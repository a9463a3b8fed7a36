//! Answers up to the first stop.
ghost use Rattle.std.specs.Prelude.{◌≡◌, Some, IfOk};
ghost use Rattle.rank_inversion.specs.Until.{IsUntilStop};

use frac_core::OutOfMemory;
use std::alloc::Global;

/// The answers before the first stop, and that stop where there is one.
#[derive(Drop)]
pub(crate) struct UntilStop<T, E> {
    pub done: Vec<T>,
    pub stop: Option<E>,
}

/// The answers of a list up to the first stop.
pub(crate) fn until_stop<T: Drop, E: Drop>(
    alloc: Global,
    answers: Vec<Result<T, E>>,
) -> Result<UntilStop<T, E>, OutOfMemory>
    ensures { IfOk result (λ until. IsUntilStop answers.items until.done.items until.stop) }
{
    let mut done = Vec::new(alloc);
    for answer in answers {
        match answer {
            Ok(item) => match done.push(item) {
                Ok(()) => {}
                Err(_) => return Err(OutOfMemory),
            },
            Err(stop) => return Ok(stopped(done, stop)),
        }
    }
    Ok(UntilStop { done, stop: None })
}

fn stopped<T: Drop, E: Drop>(done: Vec<T>, stop: E) -> UntilStop<T, E>
    ensures done { result.done.items ≡ done.items }
    ensures stop { result.stop ≡ Some stop }
{
    UntilStop {
        done,
        stop: Some(stop),
    }
}
