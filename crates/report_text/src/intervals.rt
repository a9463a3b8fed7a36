//! The lines of rank intervals.
ghost use Rattle.std.specs.Prelude.{◌≡◌, ◌++◌, ◌∷◌, [], codes};
ghost use Rattle.std.specs.List.{flat_map};
ghost use Rattle.report_text.specs.ReportText.{bound_text, interval_line};

use crate::page::Page;
use loss_model::{Bound, Interval};
use ratio::Ratio;

impl Page {
    // Adds a space and an end, or the word for one that is infinite.
    fn put_bound(&mut self, infinite: &[u8], bound: &Bound<Ratio>)
        ensures { self.new ≡ self.old ++ 32 ∷ bound_text infinite.now bound.now }
    {
        self.put(b" ");
        match bound {
            Bound::Finite(value) => self.put_ratio(value),
            Bound::Infinite => self.put(infinite),
        }
    }

    // Adds the ends of an interval, and the end of its line.
    fn put_ends(&mut self, low: &Bound<Ratio>, high: &Bound<Ratio>)
        ensures { self.new ≡ self.old ++ (32 ∷ bound_text (codes "-Inf") low.now ++ 32 ∷ bound_text (codes "Inf") high.now ++ 10 ∷ []) }
    {
        self.put_bound(b"-Inf", low);
        self.put_bound(b"Inf", high);
        self.put(b"\n");
    }

    #[tactic(auto, unfolding(crate::specs::ReportText::interval_line))]
    fn interval_line(&mut self, interval: &Interval)
        ensures { self.new ≡ self.old ++ interval_line interval.now }
    {
        self.put(b"interval ");
        self.put_count(interval.column as u64 + 1);
        self.put_next(&interval.tau);
        self.put_ends(&interval.low.bound, &interval.high.bound);
    }

    /// Adds the lines of rank intervals.
    pub(crate) fn interval_lines(&mut self, intervals: &[Interval])
        ensures { self.new ≡ self.old ++ flat_map interval_line intervals.now }
    {
        for interval in intervals {
            self.interval_line(interval);
        }
    }
}
