//! What a job is.
/// A job that may be done in a thread of its own.
pub trait Work: Send + Drop {
    /// What the job comes to.
    type Answer: Send + Drop;

    /// Whether an answer is right for a job.
    ghost answers: { Self → Self.Answer → Type 0 };

    /// Does the job.
    fn work(self) -> Self::Answer
        ensures { answers self result };
}
