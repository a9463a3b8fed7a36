//! The halts of the solver.
ghost use Rattle.std.specs.Prelude.{◌≡◌};
ghost use Rattle.rq_engine.specs.Halts.{interval_halt as interval_halt_of, stop_halt as stop_halt_of};

use frac_core::Frac128;
use loss_model::Stop;
use rank_inversion::IntervalStop;
use report_text::{Halt, Place, Refusal};

/// The halt of a stop at a place.
pub(crate) fn stop_halt(place: Place, stop: Stop<Frac128>) -> Halt
    ensures { result ≡ stop_halt_of place stop }
{
    match stop {
        Stop::OutOfMemory => Halt::OutOfMemory,
        Stop::PivotLimit { limit, trail } => Halt::PivotLimit {
            place,
            limit,
            trail,
        },
        Stop::Overflow { trail, spill } => Halt::Overflow {
            place,
            trail,
            spill,
        },
        Stop::Dependent { combination } => Halt::Refused(Refusal::Dependent { combination }),
    }
}

/// The halt of an interval that stops, at its column and its quantile.
pub(crate) fn interval_halt(stopped: IntervalStop<Frac128>) -> Halt
    ensures { result ≡ interval_halt_of stopped }
{
    let place = Place::Interval {
        column: stopped.asked.column,
        tau: stopped.asked.tau,
    };
    stop_halt(place, stopped.stop)
}
