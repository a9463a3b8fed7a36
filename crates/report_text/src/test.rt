//! The lines of a report of a rank test.
ghost use Rattle.std.specs.Prelude.{◌≡◌, ◌++◌, length};
ghost use Rattle.std.specs.List.{flat_map, zip};
ghost use Rattle.report_text.specs.ReportText.{numbered, score_line, statistic_line, test_head, test_size, test_text, tested_item, tested_line};

use crate::page::Page;
use crate::report::TestFit;
use ratio::Ratio;

impl Page {
    // A tested column, with a comma before all but the first.
    fn tested_item(&mut self, place: usize, column: u32)
        ensures { self.new ≡ self.old ++ tested_item place column }
    {
        if place > 0 {
            self.put(b",");
        }
        self.put_count(column as u64 + 1);
    }

    fn tested_items(&mut self, tested: &[u32])
        ensures { self.new ≡ self.old ++ numbered tested_item 0 tested.now }
    {
        for (place, column) in tested.iter().enumerate() {
            self.tested_item(place, *column);
        }
    }

    #[tactic(auto, unfolding(crate::specs::ReportText::tested_line))]
    fn tested_line(&mut self, tested: &[u32])
        ensures { self.new ≡ self.old ++ tested_line tested.now }
    {
        self.put(b"tested ");
        self.tested_items(tested);
        self.put(b"\n");
    }

    #[tactic(auto, unfolding(crate::specs::ReportText::score_line))]
    fn score_line(&mut self, column: u32, score: &Ratio)
        ensures { self.new ≡ self.old ++ score_line (column, score.now) }
    {
        self.put(b"score ");
        self.put_count(column as u64 + 1);
        self.put(b" ");
        self.put_ratio(score);
        self.put(b"\n");
    }

    fn score_lines(&mut self, tested: &[u32], scores: &[Ratio])
        requires { length scores.now ≡ length tested.now }
        ensures { self.new ≡ self.old ++ flat_map score_line (zip tested.now scores.now) }
    {
        for (place, column) in tested.iter().enumerate() {
            self.score_line(*column, &scores[place]);
        }
    }

    #[tactic(auto, unfolding(crate::specs::ReportText::statistic_line))]
    fn statistic_line(&mut self, statistic: &Ratio)
        ensures { self.new ≡ self.old ++ statistic_line statistic.now }
    {
        self.put(b"statistic ");
        self.put_ratio(statistic);
        self.put(b"\n");
    }

    #[tactic(auto, unfolding(crate::specs::ReportText::test_size))]
    fn test_size(&mut self, fit: &TestFit)
        ensures { self.new ≡ self.old ++ test_size fit.now }
    {
        self.tested_line(fit.tested.as_slice());
        self.pivots_line(fit.process.trail.steps.as_slice().len() as u64);
    }

    #[tactic(auto, unfolding(crate::specs::ReportText::test_head))]
    fn test_head(&mut self, fit: &TestFit)
        ensures { self.new ≡ self.old ++ test_head fit.now }
    {
        self.put(b"quantreg test 1\n");
        self.records_line(fit.kept, fit.dropped);
        self.column_lines(fit.names.as_slice());
        self.test_size(fit);
    }

    /// Adds the report of a rank test.
    #[tactic(auto, unfolding(crate::specs::ReportText::test_text))]
    pub(crate) fn test(&mut self, fit: &TestFit)
        requires { length fit.now.scores ≡ length fit.now.tested }
        ensures { self.new ≡ self.old ++ test_text fit.now }
    {
        self.test_head(fit);
        self.score_lines(fit.tested.as_slice(), fit.scores.as_slice());
        self.statistic_line(&fit.statistic);
        self.put(b"end\n");
    }
}
