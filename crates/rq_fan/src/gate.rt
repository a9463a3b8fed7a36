//! What holds jobs up, or watches them, and changes no answer.
/// A place that each job passes before it works. It is told the job's place in the list of jobs, counted from
/// 0, and changes no answer: it may note that a job is under way, or hold it up.
pub trait Gate: Sync {
    /// Called once by each job, in the thread that the job runs in.
    fn enter(&self, place: u32);
}

/// The gate that holds nothing up.
#[derive(Clone, Copy, Debug)]
pub struct Open;

impl Gate for Open {
    fn enter(&self, _place: u32) {}
}
