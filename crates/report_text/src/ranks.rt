//! The lines of a report of Wilcoxon scores.
ghost use Rattle.std.specs.Prelude.{◌≡◌, ◌++◌};
ghost use Rattle.report_text.specs.ReportText.{numbered, ranks_head, ranks_text, wilcoxon_line};

use crate::page::Page;
use crate::report::{Fit, RanksFit};
use ratio::Ratio;

impl Page {
    #[tactic(auto, unfolding(crate::specs::ReportText::wilcoxon_line))]
    fn wilcoxon_line(&mut self, number: u64, score: &Ratio)
        ensures { self.new ≡ self.old ++ wilcoxon_line number score.now }
    {
        self.put(b"wilcoxon ");
        self.put_count(number);
        self.put(b" ");
        self.put_ratio(score);
        self.put(b"\n");
    }

    fn wilcoxon_lines(&mut self, scores: &[Ratio])
        ensures { self.new ≡ self.old ++ numbered wilcoxon_line 1 scores.now }
    {
        for (index, score) in scores.iter().enumerate() {
            self.wilcoxon_line(index as u64 + 1, score);
        }
    }

    #[tactic(auto, unfolding(crate::specs::ReportText::ranks_head))]
    fn ranks_head(&mut self, fit: &Fit)
        ensures { self.new ≡ self.old ++ ranks_head fit.now }
    {
        self.put(b"quantreg ranks 1\n");
        self.records_line(fit.kept, fit.dropped);
        self.column_lines(fit.names.as_slice());
        self.pivots_line(fit.process.trail.steps.as_slice().len() as u64);
    }

    /// Adds the report of Wilcoxon scores.
    #[tactic(auto, unfolding(crate::specs::ReportText::ranks_text))]
    pub(crate) fn ranks(&mut self, ranks: &RanksFit)
        ensures { self.new ≡ self.old ++ ranks_text ranks.now }
    {
        self.ranks_head(&ranks.fit);
        self.wilcoxon_lines(ranks.wilcoxon.as_slice());
        self.put(b"end\n");
    }
}
