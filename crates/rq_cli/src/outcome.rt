//! What comes of a run, and its exit status.
ghost use Rattle.std.specs.Prelude.{◌≡◌};
ghost use Rattle.rq_cli.specs.Codes.{code_of};
ghost use Rattle.rq_cli.specs.Steps.{outcome_of};

use cert_checker::Rejection;
use frac_core::Frac128;
use loss_model::{Spill, Trail};
use report_text::{Fault, Halt, Place, Refusal, Report};
use rq_words::WordFault;

/// What came of a run.
#[derive(Drop)]
pub enum Outcome {
    /// The report, which was printed.
    Done(Report),
    /// The input has no report, for this cause.
    Refused(Refusal),
    /// The words are no job's, for this fault.
    Usage(WordFault),
    /// The source failed.
    SourceFault,
    /// A sink failed.
    SinkFault,
    /// No memory was found.
    OutOfMemory,
    /// The solver made as many pivots of the fit or of a rank interval as the limit says, and one more
    /// is left.
    PivotLimit {
        place: Place,
        limit: u32,
        trail: Trail,
    },
    /// An operation of the solver, or of the costs of a path, overflows.
    Overflow {
        place: Place,
        trail: Trail,
        spill: Spill<Frac128>,
    },
    /// The certificate is rejected: the first of its tests that is false, with its two sides.
    Rejected(Rejection),
}

impl Outcome {
    /// The outcome of a run that ends with a fault.
    pub(crate) fn of(fault: Fault) -> Outcome
        ensures { result ≡ outcome_of fault }
    {
        match fault {
            Fault::Usage(fault) => Outcome::Usage(fault),
            Fault::Source => Outcome::SourceFault,
            Fault::Sink => Outcome::SinkFault,
            Fault::Halt(Halt::Refused(refusal)) => Outcome::Refused(refusal),
            Fault::Halt(Halt::OutOfMemory) => Outcome::OutOfMemory,
            Fault::Halt(
                Halt::PivotLimit {
                    place,
                    limit,
                    trail,
                },
            ) => Outcome::PivotLimit {
                place,
                limit,
                trail,
            },
            Fault::Halt(
                Halt::Overflow {
                    place,
                    trail,
                    spill,
                },
            ) => Outcome::Overflow {
                place,
                trail,
                spill,
            },
            Fault::Halt(Halt::Rejected(rejection)) => Outcome::Rejected(rejection),
        }
    }

    /// The exit status of the program.
    pub fn code(&self) -> u8
        ensures { result ≡ code_of self.now }
    {
        match self {
            Outcome::Done(_) => 0,
            Outcome::Refused(_) => 1,
            Outcome::Usage(_) => 2,
            Outcome::SourceFault => 3,
            Outcome::SinkFault => 4,
            Outcome::OutOfMemory => 5,
            Outcome::PivotLimit { .. } => 6,
            Outcome::Overflow { .. } => 7,
            Outcome::Rejected(_) => 8,
        }
    }

    /// The exit status of an outcome, which is let go.
    pub(crate) fn into_code(self) -> u8
        ensures { result ≡ code_of self }
    {
        let code = self.code();
        drop(self);
        code
    }
}
