//! The lines of a report of predictions.
ghost use Rattle.std.specs.Prelude.{◌≡◌, ◌++◌};
ghost use Rattle.std.specs.List.{flat_map};
ghost use Rattle.report_text.specs.ReportText.{predict_head, predict_text, prediction_text, step_line};

use crate::page::Page;
use crate::report::{PredictFit, Prediction};
use predict_steps::Step;

impl Page {
    #[tactic(auto, unfolding(crate::specs::ReportText::step_line))]
    fn step_line(&mut self, step: &Step)
        ensures { self.new ≡ self.old ++ step_line step.now }
    {
        self.put(b"step ");
        self.put_ratio(&step.lo);
        self.put_next(&step.hi);
        self.put_next(&step.value);
        self.put(b"\n");
    }

    fn step_lines(&mut self, steps: &[Step])
        ensures { self.new ≡ self.old ++ flat_map step_line steps.now }
    {
        for step in steps {
            self.step_line(step);
        }
    }

    // The steps of a record's prediction, and their rearrangement.
    #[tactic(auto, unfolding(crate::specs::ReportText::prediction_text))]
    fn prediction(&mut self, prediction: &Prediction)
        ensures { self.new ≡ self.old ++ prediction_text prediction.now }
    {
        self.count_line(b"predict", prediction.rec as u64);
        self.step_lines(prediction.steps.as_slice());
        self.count_line(b"rearranged", prediction.rec as u64);
        self.step_lines(prediction.rearranged.as_slice());
    }

    fn prediction_lines(&mut self, predictions: &[Prediction])
        ensures { self.new ≡ self.old ++ flat_map prediction_text predictions.now }
    {
        for prediction in predictions {
            self.prediction(prediction);
        }
    }

    #[tactic(auto, unfolding(crate::specs::ReportText::predict_head))]
    fn predict_head(&mut self, fit: &PredictFit)
        ensures { self.new ≡ self.old ++ predict_head fit.now }
    {
        self.put(b"quantreg predict 1\n");
        self.records_line(fit.kept, fit.dropped);
        self.column_lines(fit.names.as_slice());
        self.pivots_line(fit.process.trail.steps.as_slice().len() as u64);
    }

    /// Adds the report of predictions.
    #[tactic(auto, unfolding(crate::specs::ReportText::predict_text))]
    pub(crate) fn predict(&mut self, fit: &PredictFit)
        ensures { self.new ≡ self.old ++ predict_text fit.now }
    {
        self.predict_head(fit);
        self.prediction_lines(fit.predictions.as_slice());
        self.put(b"end\n");
    }
}
