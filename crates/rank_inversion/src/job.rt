//! A rank interval as a job for a thread of its own.
ghost use Rattle.frac_core.specs.Values.{value};
ghost use Rattle.rank_inversion.specs.AllIntervals.{IsAnswer};
ghost use Rattle.rank_inversion.specs.Jobs.{range};

use crate::inversion::interval;
use frac_core::{Exact, Frac128};
use loss_model::{Interval, Problem, Stop};
use rq_fan::{Gate, Work};
use std::alloc::Global;
use std::marker::Model;

/// A rank interval that is asked for, under the conditions of `interval`, with the gate that the job enters and
/// its place there. Contracts see it as what is asked.
#[derive(Drop)]
pub struct IntervalJob<'a, F: Exact, G> {
    pub alloc: Global,
    pub problem: &'a Problem<F>,
    pub column: u32,
    pub tau: F,
    pub crit: F,
    pub limit: u32,
    pub gate: &'a G,
    pub place: u32,
}

impl<'a, F: Exact, G> Model for IntervalJob<'a, F, G> {
    ghost use Rattle.rank_inversion.specs.Inversions.{IsAskable};
    ghost use Rattle.rank_inversion.specs.Jobs.{Ask, asked_by};

    ghost Value = { Ask F };

    ghost view = { λ j. asked_by j.problem.now j.column j.tau j.crit j.limit };

    ghost invariant = { λ j. IsAskable F.value j.problem.now (record { column = j.column; tau = j.tau; crit = j.crit }) };
}

/// The job enters the gate with its place, and then answers what `interval` does.
///
/// It is done over `Frac128`: what an implementation for every type of fractions would hand to a thread isn't
/// covered by the toolchain yet.
impl<'a, G: Gate> Work for IntervalJob<'a, Frac128, G> {
    type Answer = Result<Interval, Stop<Frac128>>;

    ghost answers = { λ job answer. IsAnswer value range job.problem job.limit job.asked answer };

    fn work(self) -> Result<Interval, Stop<Frac128>> {
        self.gate.enter(self.place);
        interval(
            self.alloc,
            self.problem,
            self.column,
            self.tau,
            self.crit,
            self.limit,
        )
    }
}
