//! The lines of a report.
ghost use Rattle.std.specs.Prelude.{◌≡◌, ◌++◌, ◌+◌, ◌≤◌, length, IfOk};
ghost use Rattle.report_text.specs.ReportText.{records_line, column_line, data_line, pivots_line, segment_line, coef_line, loss_line, basic_line, scores_line, segment_text, fit_size, fit_head, fit_text, report_text, IsPrintable, numbered};
ghost use Rattle.std.specs.List.{flat_map, zip};

use crate::page::Page;
use crate::report::{Fit, Report};
use cert_text::write_cert;
use frac_core::{List, OutOfMemory, Text};
use loss_model::{Segment, Side};
use rankscores::ScorePair;
use ratio::Ratio;
use std::alloc::Global;

impl Page {
    #[tactic(auto, unfolding(crate::specs::ReportText::records_line))]
    pub(crate) fn records_line(&mut self, kept: u32, dropped: u32)
        ensures { self.new ≡ self.old ++ records_line kept dropped }
    {
        self.put(b"records ");
        self.put_count(kept as u64);
        self.put(b" dropped ");
        self.put_count(dropped as u64);
        self.put(b"\n");
    }

    #[tactic(auto, unfolding(crate::specs::ReportText::column_line))]
    pub(crate) fn column_line(&mut self, number: u64, name: &Text)
        ensures { self.new ≡ self.old ++ column_line number name.now }
    {
        self.put(b"column ");
        self.put_count(number);
        self.put(b" ");
        self.put_name(name);
        self.put(b"\n");
    }

    #[tactic(auto, unfolding(crate::specs::ReportText::segment_line))]
    pub(crate) fn segment_line(&mut self, number: u64, segment: &Segment)
        ensures { self.new ≡ self.old ++ segment_line number segment.now }
    {
        self.put(b"segment ");
        self.put_count(number);
        self.put_next(&segment.lo);
        self.put_next(&segment.hi);
        self.put(b"\n");
    }

    #[tactic(auto, unfolding(crate::specs::ReportText::data_line))]
    pub(crate) fn data_line(&mut self, rows: u64, penalty: u64)
        ensures { self.new ≡ self.old ++ data_line rows penalty }
    {
        self.put(b"data ");
        self.put_count(rows);
        self.put(b" penalty ");
        self.put_count(penalty);
        self.put(b"\n");
    }

    #[tactic(auto, unfolding(crate::specs::ReportText::pivots_line))]
    pub(crate) fn pivots_line(&mut self, pivots: u64)
        ensures { self.new ≡ self.old ++ pivots_line pivots }
    {
        self.put(b"pivots ");
        self.put_count(pivots);
        self.put(b"\n");
    }

    #[tactic(auto, unfolding(crate::specs::ReportText::coef_line))]
    fn coef_line(&mut self, number: u64, coef: &Ratio)
        ensures { self.new ≡ self.old ++ coef_line number coef.now }
    {
        self.put(b"coef ");
        self.put_count(number);
        self.put(b" ");
        self.put_ratio(coef);
        self.put(b"\n");
    }

    #[tactic(auto, unfolding(crate::specs::ReportText::loss_line))]
    pub(crate) fn loss_line(&mut self, lo: &Ratio, hi: &Ratio)
        ensures { self.new ≡ self.old ++ loss_line lo.now hi.now }
    {
        self.put(b"loss ");
        self.put_ratio(lo);
        self.put(b" ");
        self.put_ratio(hi);
        self.put(b"\n");
    }

    #[tactic(auto, unfolding(crate::specs::ReportText::basic_line))]
    fn basic_line(&mut self, pair: &ScorePair)
        ensures { self.new ≡ self.old ++ basic_line pair.now }
    {
        self.put(b"basic ");
        self.put_count(pair.row as u64 + 1);
        self.put_next(&pair.at_lo);
        self.put_next(&pair.at_hi);
        self.put(b"\n");
    }

    fn basic_lines(&mut self, pairs: &[ScorePair])
        ensures { self.new ≡ self.old ++ flat_map basic_line pairs.now }
    {
        for pair in pairs {
            self.basic_line(pair);
        }
    }

    pub(crate) fn coef_lines(&mut self, coef: &[Ratio])
        ensures { self.new ≡ self.old ++ numbered coef_line 1 coef.now }
    {
        for (index, value) in coef.iter().enumerate() {
            self.coef_line(index as u64 + 1, value);
        }
    }

    pub(crate) fn column_lines(&mut self, names: &[Text])
        ensures { self.new ≡ self.old ++ numbered column_line 1 names.now }
    {
        for (index, name) in names.iter().enumerate() {
            self.column_line(index as u64 + 1, name);
        }
    }

    #[tactic(auto, unfolding(crate::specs::ReportText::scores_line))]
    fn scores_line(&mut self, data_rows: u32, sides: &[Side])
        ensures { self.new ≡ self.old ++ scores_line data_rows sides.now }
    {
        self.put(b"scores ");
        self.put_marks(data_rows, sides);
        self.put(b"\n");
    }

    #[tactic(auto, unfolding(crate::specs::ReportText::segment_text))]
    fn segment(&mut self, data_rows: u32, number: u64, segment: &Segment, pairs: &[ScorePair])
        ensures { self.new ≡ self.old ++ segment_text data_rows number (segment.now, pairs.now) }
    {
        self.segment_line(number, segment);
        self.coef_lines(segment.vertex.coef.as_slice());
        self.loss_line(&segment.loss_lo, &segment.loss_hi);
        self.scores_line(data_rows, segment.vertex.sides.as_slice());
        self.basic_lines(pairs);
    }

    /// Adds the segments, each with the scores of its basic rows.
    pub(crate) fn segments(
        &mut self,
        data_rows: u32,
        segments: &[Segment],
        scores: &[List<ScorePair>],
    )
        requires { length scores.now ≡ length segments.now }
        ensures { self.new ≡ self.old ++ numbered (segment_text data_rows) 1 (zip segments.now scores.now) }
    {
        for (index, segment) in segments.iter().enumerate() {
            self.segment(
                data_rows,
                index as u64 + 1,
                segment,
                scores[index].as_slice(),
            );
        }
    }

    #[tactic(auto, unfolding(crate::specs::ReportText::fit_size))]
    fn fit_size(&mut self, fit: &Fit)
        requires { fit.now.data_rows ≤ length fit.now.problem.rows }
        ensures { self.new ≡ self.old ++ fit_size fit.now }
    {
        let rows = fit.problem.rows.as_slice().len() as u64;
        let data_rows = fit.data_rows as u64;
        self.data_line(data_rows, rows - data_rows);
        self.pivots_line(fit.process.trail.steps.as_slice().len() as u64);
    }

    #[tactic(auto, unfolding(crate::specs::ReportText::fit_head))]
    fn fit_head(&mut self, fit: &Fit)
        requires { fit.now.data_rows ≤ length fit.now.problem.rows }
        ensures { self.new ≡ self.old ++ fit_head fit.now }
    {
        self.put(b"quantreg 1\n");
        self.records_line(fit.kept, fit.dropped);
        self.column_lines(fit.names.as_slice());
        self.fit_size(fit);
    }

    #[tactic(auto, unfolding(crate::specs::ReportText::fit_text))]
    fn fit(&mut self, fit: &Fit)
        requires data { fit.now.data_rows ≤ length fit.now.problem.rows }
        requires scored { length fit.now.scores ≡ length fit.now.process.segments }
        ensures { self.new ≡ self.old ++ fit_text fit.now }
    {
        self.fit_head(fit);
        self.segments(
            fit.data_rows,
            fit.process.segments.as_slice(),
            fit.scores.as_slice(),
        );
        self.interval_lines(fit.intervals.as_slice());
        self.put(b"end\n");
    }
}

/// The text of a report. It refuses only for memory.
///
/// A fit has one list of scores per segment, and no more data rows than rows. A test has one score per tested column. A path has no more data rows than rows, and
/// as many values of basic rows at either end of a segment as there are basic rows.
pub fn report_bytes(alloc: Global, report: &Report) -> Result<Vec<u8>, OutOfMemory>
    requires { IsPrintable report.now }
    ensures { IfOk result (λ bytes. bytes.items ≡ report_text report.now) }
{
    let mut page = Page::new(alloc);
    match report {
        Report::Process(fit) => page.fit(fit),
        Report::Ranks(ranks) => page.ranks(ranks),
        Report::Certificate(cert) => return write_cert(alloc, cert),
        Report::Checked(cert) => page.checked(cert),
        Report::Sample(fit) => page.sample(fit),
        Report::Test(fit) => page.test(fit),
        Report::Predict(fit) => page.predict(fit),
        Report::Path(fit) => page.path(fit),
    }
    page.finish()
}
