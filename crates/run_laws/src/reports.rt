//! The laws of printed reports. No function here does anything: its contract is the law.

ghost use Rattle.run_laws.specs.LeastReports.{ReportIsLeast};
ghost use Rattle.run_laws.specs.OnlyFits.{FitIsOnly};
ghost use Rattle.run_laws.specs.ReadFits.{ReportHasMinima, FitIsRead};
ghost use Rattle.run_laws.specs.SteadyReports.{ReportIsSteady};
ghost use Rattle.real_laws.specs.RealLaws.{reals};

use frac_core::Frac128;
use quantile_laws::laws::{
    centroid_never_falls, least_loss, moved_responses, split_by_quantile, unique_minimum,
};
use real_laws::Numbers;
use real_laws::laws::{minimum_everywhere, minimum_over_reals, unique_everywhere};

/// At every real quantile of a printed segment no vector of real numbers loses less than the printed coefficients. So it is of
/// every report, of a certificate that is accepted too, and over every ordered field that contains the fractions.
pub fn report_is_least<N: Numbers>()
    ensures every { ReportIsLeast N.ring }
    ensures real { ReportIsLeast reals }
{
    minimum_everywhere::<N>();
    minimum_over_reals();
}

/// Where the basis has records alone and no score of it is 0 or 1, no other vector of real numbers loses as little as the
/// printed coefficients. None does strictly between both ends of a segment, also at a real quantile, where no row's scores of
/// such a basis are twice 0 or twice 1 (Koenker 2005, section 2.2.2). It is so of a process, and of the fit under Wilcoxon
/// scores, of a generated table and in a certificate that is written.
pub fn fit_is_only<N: Numbers>()
    ensures every { FitIsOnly N.ring }
    ensures real { FitIsOnly reals }
{
    unique_everywhere::<N>();
    unique_minimum();
}

/// The dual values of a printed segment tell all coefficients that minimise at its ends, in every report. Of a process, and of
/// the fit under Wilcoxon scores, of a generated table and in a certificate that is written: where the formula has an intercept,
/// the marks of a segment split the records by the quantile, and so does every fit that minimises; at the centroid of the
/// records the fit never falls from one segment to a later one; and the losses are those of a concave function of the quantile
/// (Koenker 2005, sections 2.2.2 and 2.5).
pub fn fit_is_read()
    ensures minima { ReportHasMinima }
    ensures read { FitIsRead }
{
    unique_minimum();
    split_by_quantile::<Frac128>();
    centroid_never_falls();
    least_loss();
}

/// The coefficients of a printed segment minimise, and its dual values show it, also where each response stays on its side of
/// them, however far it moves: that of a record with the mark 1 up, and that of one with the mark 0 down. A run on such
/// responses may print another basis, and so other scores.
pub fn fit_is_steady()
    ensures { ReportIsSteady }
{
    moved_responses();
}
