//! Formulas over the columns of tables, as designs are made of them.

ghost use Rattle.std.specs.Prelude.{◌<◌, ◌^◌, All, IfSome, IsTrue, length};
ghost use Rattle.formula_parser.specs.Held.{IsHeld, ariths_of};

use data_frame::Frame;
use formula_parser::laws::arithmetics_are_held;
use formula_parser::{Formula, Term, parse};
use std::alloc::Global;

fn are_short(terms: &[Term]) -> bool
    ensures { IsTrue result → All (λ t. length t.variables < 2 ^ 32) terms.now }
{
    for term in terms {
        if term.variables.as_slice().len() >= 1 << 32 {
            return false;
        }
    }
    true
}

/// The formula of a text, unless it has a fault, or a term is too long. Its arithmetics can be evaluated.
pub(crate) fn model_of(alloc: Global, frame: &Frame, text: &str) -> Option<Formula>
    ensures short { IfSome result (λ model. All (λ t. length t.variables < 2 ^ 32) model.terms) }
    ensures held { IfSome result (λ model. All (IsHeld frame.now.names) (ariths_of model)) }
{
    if text.len() > 1 << 30 {
        return None;
    }
    arithmetics_are_held();
    let Ok(model) = parse(alloc, text, frame.names()) else {
        return None;
    };
    if !are_short(model.terms.as_slice()) {
        return None;
    }
    Some(model)
}
