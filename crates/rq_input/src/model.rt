//! The model of a job's formula.
ghost use Rattle.std.specs.Prelude.{◌≤◌, ◌<◌, ◌^◌, length, IfOk, IfErr};
ghost use Rattle.formula_parser.specs.Parsed.{IsFault, IsParsed};
ghost use Rattle.rq_input.specs.Buildable.{IsBuildable};

use data_frame::Frame;
use formula_parser::laws::{arithmetics_are_held, formulas_are_countable};
use formula_parser::{Formula, FormulaFault, parse};
use rq_words::FitJob;
use std::alloc::Global;

/// What the formula of a job says over the names of a table, or its first fault.
pub(crate) fn read_model(
    alloc: Global,
    job: &FitJob,
    frame: &Frame,
) -> Result<Formula, FormulaFault>
    requires long { length job.now.formula < 2 ^ 31 }
    requires few { length frame.now.names ≤ 1024 }
    ensures parsed { IfOk result (IsParsed job.now.formula frame.now.names) }
    ensures buildable { IfOk result (IsBuildable frame.now.names) }
    ensures fault { IfErr result (IsFault job.now.formula frame.now.names) }
{
    arithmetics_are_held();
    formulas_are_countable();
    match parse(alloc, job.formula.as_str(), frame.names()) {
        Ok(model) => Ok(model),
        Err(fault) => Err(fault),
    }
}
