//! That the numbers of steps are in lowest terms.
ghost use Rattle.std.specs.Prelude.{All};
ghost use Rattle.predict_steps.specs.LowestSteps.{IsLowestStep};

use crate::step::Step;

// The law of one step.
fn lowest_step(step: &Step)
    ensures { IsLowestStep step.now }
{
    step.lo.lowest();
    step.hi.lowest();
    step.value.lowest();
}

/// The law of all steps: their ends and values are in lowest terms, as every `Ratio` is.
pub fn all_lowest_steps(steps: &[Step])
    ensures { All IsLowestStep steps.now }
{
    for step in steps {
        lowest_step(step);
    }
}
