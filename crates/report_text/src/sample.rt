//! The summary of a fit of a generated table.
ghost use Rattle.std.specs.Prelude.{◌≡◌, ◌++◌};
ghost use Rattle.report_text.specs.ReportText.{range_loss_line, sample_head, sample_text};

use crate::page::Page;
use crate::report::Fit;
use loss_model::Segment;

impl Page {
    // The losses at both ends of the range of these segments.
    #[tactic(auto, unfolding(crate::specs::ReportText::outer_loss_line))]
    fn range_loss_line(&mut self, segments: &[Segment])
        ensures { self.new ≡ self.old ++ range_loss_line segments.now }
    {
        match (segments.first(), segments.last()) {
            (Some(first), Some(last)) => self.loss_line(&first.loss_lo, &last.loss_hi),
            _ => {}
        }
    }

    // How large the fit is.
    #[tactic(auto, unfolding(crate::specs::ReportText::sample_head))]
    fn sample_head(&mut self, fit: &Fit)
        ensures { self.new ≡ self.old ++ sample_head fit.now }
    {
        self.put(b"quantreg sample 1\n");
        self.records_line(fit.kept, fit.dropped);
        self.count_line(b"columns", fit.problem.columns as u64);
        self.count_line(b"segments", fit.process.segments.as_slice().len() as u64);
    }

    /// Adds the summary: how large the fit is, how many pivots were made, and what is lost at both ends of the
    /// range.
    #[tactic(auto, unfolding(crate::specs::ReportText::sample_text))]
    pub(crate) fn sample(&mut self, fit: &Fit)
        ensures { self.new ≡ self.old ++ sample_text fit.now }
    {
        self.sample_head(fit);
        self.pivots_line(fit.process.trail.steps.as_slice().len() as u64);
        self.range_loss_line(fit.process.segments.as_slice());
        self.put(b"end\n");
    }
}
