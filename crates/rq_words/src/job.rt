//! What a command asks for.
ghost use Rattle.std.specs.Prelude.{◌↔◌, IsTrue};
ghost use Rattle.rq_words.specs.Requests.{Reads};

use contrasts::Coding;
use frac_core::{Frac128, List, Text};

/// What a command asks for.
#[derive(Drop)]
pub enum Job {
    /// Fit a table's response at each quantile of a range.
    Process(FitJob),
    /// Wilcoxon rank scores of a table's response, over the range 0 to 1.
    Ranks(FitJob),
    /// The certificate of a fit.
    Certify(FitJob),
    /// Check a certificate.
    Check,
    /// Fit a table that is made from a number.
    Sample(SampleJob),
    /// The rank test of columns of a fit: are their coefficients 0? No rank intervals are asked for.
    Test(TestJob),
    /// Predict the missing responses of a table at each quantile of a range. No rank intervals are
    /// asked for.
    Predict(FitJob),
    /// The l1 path of a fit in lambda. No rank intervals are asked for.
    Path(PathJob),
}

impl Job {
    /// Whether the job reads its source: every one but that of a generated table.
    pub fn reads(&self) -> bool
        ensures { IsTrue result ↔ Reads self.now }
    {
        !matches!(self, Job::Sample(_))
    }
}

/// A fit of a table.
#[derive(Drop)]
pub struct FitJob {
    /// The formula, as it was written.
    pub formula: Text,
    /// The least quantile of the range.
    pub lo: Frac128,
    /// The greatest quantile of the range.
    pub hi: Frac128,
    /// The name of the column of weights.
    pub weights: Option<Text>,
    /// The coding of factors that are whole terms.
    pub coding: Coding,
    /// How many pivots a process or a rank interval may take.
    pub limit: u32,
    /// The rank intervals, where they are asked for.
    pub rank: Option<RankAsk>,
}

/// Which rank intervals are asked for.
#[derive(Drop)]
pub struct RankAsk {
    /// The critical value of the squared rank statistic.
    pub crit: Frac128,
    /// The quantiles, as given.
    pub taus: List<Frac128>,
}

/// A rank test of nested models (Gutenbrunner, Jurečková, Koenker and Portnoy 1993).
#[derive(Drop)]
pub struct TestJob {
    /// The fit, whose range is 0 to 1.
    pub fit: FitJob,
    /// The tested columns, counted from 0: 1 to 128 of them. The number 0, which is that of no column, was given where
    /// `u32::MAX` stands.
    pub tested: List<u32>,
}

/// A path in lambda at one quantile: the check loss plus lambda times the sum of the absolute coefficients.
#[derive(Drop)]
pub struct PathJob {
    /// The fit, whose range is that of lambda: its least value is above 0.
    pub fit: FitJob,
    /// The quantile, from 0 to 1.
    pub tau: Frac128,
}

/// A fit of a generated table.
#[derive(Clone, Copy)]
pub struct SampleJob {
    /// The number that the table is made from.
    pub number: u32,
    /// How many records it has.
    pub rows: u32,
    /// How many columns it has beside the response.
    pub columns: u32,
    /// The least quantile of the range.
    pub lo: Frac128,
    /// The greatest quantile of the range.
    pub hi: Frac128,
    /// How many pivots the process may take.
    pub limit: u32,
}

/// Why words are refused.
#[derive(Drop)]
pub enum WordFault {
    /// There is no word.
    NoJob,
    /// The first word names no job.
    UnknownJob,
    /// The words after it aren't options of the job with one value each, or a required one is
    /// missing, or one of them has 2^31 bytes or more.
    BadOption,
    /// The value of this option isn't a number as the option wants it.
    BadNumber { option: Text },
    /// The range isn't `0 <= lo <= hi <= 1`; of a path, it isn't `0 < lo <= hi`, or not `0 <= tau <= 1`.
    BadRange,
    /// A quantile of the rank intervals is at most 0 or at least 1.
    BadTauForRank,
    /// The critical value is below 0.
    NegativeLimit,
    /// The contrasts have no such name.
    BadContrasts,
    /// A critical value stands without quantiles, or they without it.
    RankHalf,
    /// No memory was found.
    OutOfMemory,
    /// The numbers of the tested columns don't rise strictly.
    NotAscending,
}
