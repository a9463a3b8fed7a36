//! Arithmetics over the names of a table: the text, the names, the code and the values of each.
//!
//! A code is told by its steps: the number of a name, `=` and a constant, `neg`, `+`, `-`, `*`, and `^` and an
//! exponent.

ghost use Rattle.std.specs.Prelude.{◌<◌, ◌^◌, All, length};
ghost use Rattle.formula_parser.specs.Held.{IsHeld, ariths_of};

use crate::designs::tell_fault;
use crate::models::model_of;
use crate::told::{Told, shared_frame};
use contrasts::Coding;
use data_frame::Frame;
use design_matrix::{DesignRow, build};
use formula_parser::Formula;
use frac_core::{Arith, ArithOp};

fn tell_op(told: &mut Told, op: ArithOp) {
    match op {
        ArithOp::Load { name } => told.put_named("", name),
        ArithOp::Constant { value } => {
            told.put("=");
            told.put_number(value);
        }
        ArithOp::Negate => told.put("neg"),
        ArithOp::Add => told.put("+"),
        ArithOp::Sub => told.put("-"),
        ArithOp::Mul => told.put("*"),
        ArithOp::Power { exponent } => told.put_named("^", exponent),
    }
}

// The text, the names and the code of an arithmetic.
fn tell_arith(told: &mut Told, arith: &Arith) {
    told.put(arith.text.as_str());
    told.put(" | ");
    told.put_names(arith.names.as_slice(), ",");
    told.put(" |");
    for op in arith.code.as_slice() {
        told.put(" ");
        tell_op(told, *op);
    }
}

// The item of a list that has just one.
fn only<T>(items: &[T]) -> Option<&T> {
    if items.len() == 1 {
        items.first()
    } else {
        None
    }
}

// The arithmetic of a formula with just one term of just one variable.
fn only_arith(formula: &Formula) -> Option<&Arith> {
    let term = only(formula.terms.as_slice())?;
    only(term.variables.as_slice())?.arith.as_ref()
}

// The entry behind that of the intercept.
fn tell_value(told: &mut Told, row: &DesignRow) {
    told.put(" ");
    match row.x.as_slice().get(1) {
        Some(value) => told.put_number(*value),
        None => told.put("no entry"),
    }
}

// The values of the only variable of a formula, by record.
fn tell_values(told: &mut Told, frame: &Frame, model: &Formula)
    requires short { All (λ t. length t.variables < 2 ^ 32) model.now.terms }
    requires held { All (IsHeld frame.now.names) (ariths_of model.now) }
{
    let built = build(told.alloc(), frame, model, Coding::Treatment, None);
    match &built {
        Ok(design) => {
            for row in design.rows.as_slice() {
                tell_value(told, row);
            }
        }
        Err(fault) => tell_fault(told, fault),
    }
    drop(built);
}

// What `y ~ I(..)` says of its arithmetic, and the values of that.
fn tell_model(told: &mut Told, frame: &Frame, text: &str) {
    let Some(model) = model_of(told.alloc(), frame, text) else {
        return told.put("no formula");
    };
    match only_arith(&model) {
        Some(arith) => tell_arith(told, arith),
        None => told.put("not one arithmetic"),
    }
    told.put(" |");
    tell_values(told, frame, &model);
    drop(model);
}

/// What `y ~ I(..)` says of an arithmetic, and the values of that in each record of a table.
pub(crate) fn tell(told: &mut Told, shared: &str, asked: &str) {
    let mut text = Told::new(told.alloc());
    text.put("y ~ I(");
    text.put(asked);
    text.put(")");
    match shared_frame(told.alloc(), shared) {
        Some(frame) => {
            tell_model(told, &frame, text.as_str());
            drop(frame);
        }
        None => told.put("no table"),
    }
}
