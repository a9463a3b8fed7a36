//! The lines of a report of a path in lambda.
ghost use Rattle.std.specs.Prelude.{◌≡◌, ◌++◌, ◌≤◌, All, length};
ghost use Rattle.report_text.specs.ReportText.{IsPaired, dual_line, duals_text, numbered, path_head, path_segment_text, path_size, path_text, sides_line};

use crate::page::Page;
use crate::report::PathFit;
use loss_model::{Segment, Side};
use ratio::Ratio;

impl Page {
    #[tactic(auto, unfolding(crate::specs::ReportText::sides_line))]
    fn sides_line(&mut self, sides: &[Side])
        ensures { self.new ≡ self.old ++ sides_line sides.now }
    {
        self.put(b"sides ");
        self.put_marks(0, sides);
        self.put(b"\n");
    }

    #[tactic(auto, unfolding(crate::specs::ReportText::dual_line))]
    fn dual_line(&mut self, row: u32, lo: &Ratio, hi: &Ratio)
        ensures { self.new ≡ self.old ++ dual_line ((row, lo.now), hi.now) }
    {
        self.put(b"dual ");
        self.put_count(row as u64 + 1);
        self.put_next(lo);
        self.put_next(hi);
        self.put(b"\n");
    }

    // The dual values of the rows of the basis, at both ends.
    fn dual_lines(&mut self, segment: &Segment)
        requires { IsPaired segment.now }
        ensures { self.new ≡ self.old ++ duals_text segment.now }
    {
        let at_lo = segment.basic_lo.as_slice();
        let at_hi = segment.basic_hi.as_slice();
        for (k, row) in segment.vertex.basis.rows.as_slice().iter().enumerate() {
            self.dual_line(*row, &at_lo[k], &at_hi[k]);
        }
    }

    #[tactic(auto, unfolding(crate::specs::ReportText::path_segment_text))]
    fn path_segment(&mut self, number: u64, segment: &Segment)
        requires { IsPaired segment.now }
        ensures { self.new ≡ self.old ++ path_segment_text number segment.now }
    {
        self.segment_line(number, segment);
        self.coef_lines(segment.vertex.coef.as_slice());
        self.loss_line(&segment.loss_lo, &segment.loss_hi);
        self.sides_line(segment.vertex.sides.as_slice());
        self.dual_lines(segment);
    }

    fn path_segments(&mut self, segments: &[Segment])
        requires { All IsPaired segments.now }
        ensures { self.new ≡ self.old ++ numbered path_segment_text 1 segments.now }
    {
        for (index, segment) in segments.iter().enumerate() {
            self.path_segment(index as u64 + 1, segment);
        }
    }

    #[tactic(auto, unfolding(crate::specs::ReportText::path_size))]
    fn path_size(&mut self, fit: &PathFit)
        requires { fit.now.data_rows ≤ length fit.now.problem.rows }
        ensures { self.new ≡ self.old ++ path_size fit.now }
    {
        let rows = fit.problem.rows.as_slice().len() as u64;
        let data_rows = fit.data_rows as u64;
        self.data_line(data_rows, rows - data_rows);
        self.pivots_line(fit.process.trail.steps.as_slice().len() as u64);
    }

    #[tactic(auto, unfolding(crate::specs::ReportText::path_head))]
    fn path_head(&mut self, fit: &PathFit)
        requires { fit.now.data_rows ≤ length fit.now.problem.rows }
        ensures { self.new ≡ self.old ++ path_head fit.now }
    {
        self.put(b"quantreg path 1\n");
        self.records_line(fit.kept, fit.dropped);
        self.column_lines(fit.names.as_slice());
        self.path_size(fit);
    }

    /// Adds the report of a path.
    #[tactic(auto, unfolding(crate::specs::ReportText::path_text))]
    pub(crate) fn path(&mut self, fit: &PathFit)
        requires data { fit.now.data_rows ≤ length fit.now.problem.rows }
        requires paired { All IsPaired fit.now.process.segments }
        ensures { self.new ≡ self.old ++ path_text fit.now }
    {
        self.path_head(fit);
        self.path_segments(fit.process.segments.as_slice());
        self.put(b"end\n");
    }
}
