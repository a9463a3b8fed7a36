//! The jobs: the solve at a quantile, and the interval of a column from there.
//!
//! They are done over `Frac128`: what an implementation of `Work` for every type of fractions would hand to a
//! thread isn't covered by the toolchain yet.
ghost use Rattle.frac_core.specs.Values.{value};
ghost use Rattle.rank_inversion.specs.Answers.{IsIntervalAnswer, IsStartedAt};
ghost use Rattle.rank_inversion.specs.Jobs.{range};

use crate::asks::{IntervalStop, RankProblem, StartedAt};
use crate::column_test::Asked;
use crate::wholes::Started;
use frac_core::{Exact, Frac128};
use loss_model::Interval;
use rq_fan::{Gate, Work};
use std::alloc::Global;
use std::marker::Model;

/// The solve at a quantile. Contracts see the problem and the quantile.
#[derive(Drop)]
pub(crate) struct StartJob<'a, F: Exact> {
    pub alloc: Global,
    pub ranked: RankProblem<'a, F>,
    pub tau: F,
}

impl<'a, F: Exact> Model for StartJob<'a, F> {
    ghost use Rattle.rank_inversion.specs.RankProblems.{IsSolvable};
    ghost use Rattle.rank_inversion.specs.declared.asks.RankProblem.{RankProblem};

    ghost Value = { RankProblem F × F };

    ghost view = { λ j. (j.ranked, j.tau) };

    ghost invariant = { λ j. IsSolvable F.value j.ranked j.tau };
}

impl<'a> Work for StartJob<'a, Frac128> {
    type Answer = StartedAt<'a, Frac128>;

    ghost answers = { λ job answer. IsStartedAt value job.0 job.1 answer };

    fn work(self) -> StartedAt<'a, Frac128> {
        self.ranked.start(self.alloc, self.tau)
    }
}

/// The interval of a column, from the solve at its quantile. It enters the gate with its place before it works.
/// Contracts see the problem and what is asked.
#[derive(Drop)]
pub(crate) struct ColumnJob<'a, 'b, F: Exact, G> {
    pub alloc: Global,
    pub ranked: RankProblem<'a, F>,
    pub started: &'b Option<Started<'a, F>>,
    pub asked: Asked<F>,
    pub gate: &'b G,
    pub place: u32,
}

impl<'a, 'b, F: Exact, G> Model for ColumnJob<'a, 'b, F, G> {
    ghost use Rattle.rank_inversion.specs.declared.column_test.Asked.{Asked};
    ghost use Rattle.rank_inversion.specs.RankProblems.{IsWalkable};
    ghost use Rattle.rank_inversion.specs.declared.asks.RankProblem.{RankProblem};

    ghost Value = { RankProblem F × Asked F };

    ghost view = { λ j. (j.ranked, j.asked) };

    ghost invariant = { λ j. IsWalkable F.value j.ranked j.asked j.started.now };
}

impl<'a, 'b, G: Gate> Work for ColumnJob<'a, 'b, Frac128, G> {
    type Answer = Result<Interval, IntervalStop<Frac128>>;

    ghost answers = { λ job answer. IsIntervalAnswer value range job.0 job.1 answer };

    fn work(self) -> Result<Interval, IntervalStop<Frac128>> {
        self.gate.enter(self.place);
        self.ranked.interval(self.alloc, self.started, self.asked)
    }
}
