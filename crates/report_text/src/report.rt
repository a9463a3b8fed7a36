//! What a job answers.
use cert_checker::Rejection;
use cert_text::{Cert, CertFault};
use data_frame::TableFault;
use design_matrix::DesignFault;
use formula_parser::FormulaFault;
use frac_core::{Frac128, List, Text};
use loss_model::{Interval, Problem, Process, Spill, Trail};
use predict_steps::Step;
use rankscores::ScorePair;
use ratio::Ratio;
use rq_program::ProgramFault;
use rq_words::WordFault;
use tv_penalty::PenaltyFault;

/// A fitted model: how many records were kept and dropped, the names of its columns, its rows, of
/// which the first `data_rows` are data rows, the process, for each segment the rankscores of its
/// basic rows, and the rank intervals, quantile by quantile and column by column within.
#[derive(Drop)]
pub struct Fit {
    pub kept: u32,
    pub dropped: u32,
    pub names: List<Text>,
    pub data_rows: u32,
    pub problem: Problem<Frac128>,
    pub process: Process,
    pub scores: List<List<ScorePair>>,
    pub intervals: List<Interval>,
}

/// A fitted model over 0 to 1, and the Wilcoxon score of each of its rows.
#[derive(Drop)]
pub struct RanksFit {
    pub fit: Fit,
    pub wilcoxon: List<Ratio>,
}

/// A rank test of nested models: the tested columns, counted from 0 and ascending, the process over 0 to 1 without them,
/// the score of each of them, and the statistic.
#[derive(Drop)]
pub struct TestFit {
    pub kept: u32,
    pub dropped: u32,
    pub names: List<Text>,
    pub tested: List<u32>,
    pub process: Process,
    pub scores: List<Ratio>,
    pub statistic: Ratio,
}

/// A fitted process, and what it predicts of each record whose response is missing and whose other
/// used cells, the weight apart, aren't, by ascending record.
#[derive(Drop)]
pub struct PredictFit {
    pub kept: u32,
    pub dropped: u32,
    pub names: List<Text>,
    pub process: Process,
    pub predictions: List<Prediction>,
}

/// A fitted path in lambda: its problem, of which the first `data_rows` rows are data rows, and the process over
/// lambda.
#[derive(Drop)]
pub struct PathFit {
    pub kept: u32,
    pub dropped: u32,
    pub names: List<Text>,
    pub data_rows: u32,
    pub problem: Problem<Frac128>,
    pub process: Process,
}

/// What is predicted of a record, counted from 1: a step along each segment of the process, and the
/// rearrangement of these steps.
#[derive(Drop)]
pub struct Prediction {
    pub rec: u32,
    pub steps: List<Step>,
    pub rearranged: List<Step>,
}

/// What a job found.
#[derive(Drop)]
pub enum Report {
    Process(Fit),
    Ranks(RanksFit),
    /// A fit as a certificate, which anybody can check.
    Certificate(Cert),
    /// A certificate all of whose conditions are true.
    Checked(Cert),
    /// A fit of a generated table, of which a summary is printed.
    Sample(Fit),
    /// The rank test of nested models.
    Test(TestFit),
    /// The predictions of missing responses.
    Predict(PredictFit),
    /// The path in lambda.
    Path(PathFit),
}

/// Why an input has no report. No fault in it is want of memory.
#[derive(Drop)]
pub enum Refusal {
    /// It is longer than 2^26 bytes.
    TooLong,
    /// It is no table.
    Table(TableFault),
    /// The formula is none over the names of the table.
    Formula(FormulaFault),
    /// The formula has a smooth, and ranks, rank intervals or a rank test are asked for.
    RankWithPenalty,
    /// The table has no design by the formula.
    Design(DesignFault),
    /// The smooths of the formula add nothing to the design.
    Penalty(PenaltyFault),
    /// The design has no problem.
    Program(ProgramFault),
    /// The columns are dependent: this combination of them, which isn't all 0, is 0 in every row.
    Dependent { combination: List<Ratio> },
    /// The text of the certificate has so many bytes, which is more than 2^26, or its rows times its segments
    /// exceed 2^30.
    CertTooLong { length: u64 },
    /// It is no certificate.
    Certificate(CertFault),
    /// This number of a tested column, as it was given, is 0 or beyond the columns.
    NoSuchColumn { column: u32 },
    /// Every column is tested.
    AllTested,
    /// The formula has a smooth, and the job takes none.
    SmoothNotTaken,
    /// No record has a missing response and all its other used cells, the weight apart.
    NothingToPredict,
    /// So many records would be predicted, which is more than 64.
    TooManyPredictions { found: u32 },
}

/// Where the solver stopped.
#[derive(Clone, Copy, Debug, PartialEq, Eq)]
pub enum Place {
    /// In the fit itself.
    Process,
    /// In the rank interval of a column, counted from 0, at a quantile.
    Interval { column: u32, tau: Frac128 },
    /// In the start of a whole problem, before the process without its tested columns.
    Full,
    /// In the costs of a path problem.
    Path,
}

/// Why a job ended without a report.
#[derive(Drop)]
pub enum Halt {
    Refused(Refusal),
    OutOfMemory,
    /// The trail has as many pivots as the limit says, and one more is left.
    PivotLimit {
        place: Place,
        limit: u32,
        trail: Trail,
    },
    /// An operation overflows at the last basis of the trail.
    Overflow {
        place: Place,
        trail: Trail,
        spill: Spill<Frac128>,
    },
    /// A condition of the certificate is false: the first test that is, with its two sides.
    Rejected(Rejection),
}

/// Why a run has no report, or none that was printed: what is told on standard error.
#[derive(Drop)]
pub enum Fault {
    /// The words are no job's.
    Usage(WordFault),
    /// The source failed.
    Source,
    /// A sink failed.
    Sink,
    /// No memory was found, the input has no report, or a certificate is rejected.
    Halt(Halt),
}
