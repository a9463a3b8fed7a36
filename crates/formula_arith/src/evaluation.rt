//! The value of an arithmetic, by its code over a stack.
ghost use Rattle.std.specs.Prelude.{◌≡◌, ◌<◌, ◌^◌, [], map, IfErr, IfOk, OnOk};
ghost use Rattle.frac_core.specs.Values.{exact};
ghost use Rattle.formula_arith.specs.Codes.{numbered_in};
ghost use Rattle.formula_arith.specs.Evaluations.{IsCause, IsValue, NoneOverflows};
ghost use Rattle.formula_arith.specs.Machine.{Halts, code_operations, exec, top};

use crate::fault::ArithFault;
use crate::operands::{Operands, numbered};
use frac_core::{Arith, ArithOp, Frac128};
use std::alloc::Global;

// What code leaves on an empty stack.
fn run(alloc: Global, code: &[ArithOp], values: &[Frac128]) -> Result<Frac128, ArithFault>
    requires { numbered_in code.now < 2 ^ 32 }
    ensures value { IfOk result (λ x. exact x ≡ top (exec (map exact values.now) code.now [])) }
    ensures fits { OnOk result (NoneOverflows (code_operations (map exact values.now) code.now [])) }
    ensures cause { IfErr result (Halts 0 (code_operations (map exact values.now) code.now [])) }
{
    let mut operands = Operands::new(alloc);
    let mut count = 0;
    for op in code {
        let value = operands.act(count, *op, values)?;
        operands.push(value)?;
        count += numbered(*op);
    }
    Ok(operands.pop())
}

/// The value of an arithmetic at one value per name, in the order of its names.
///
/// Additions, subtractions and multiplications are numbered from 1 in the order of the code, where
/// `A^k` multiplies k - 1 times. `Overflow` comes exactly where one of these overflows, and names
/// the first. All this holds of names and code that are those of an arithmetic whose exponents are
/// 1 to 8.
pub fn evaluate(alloc: Global, arith: &Arith, values: &[Frac128]) -> Result<Frac128, ArithFault>
    requires { numbered_in arith.now.code < 2 ^ 32 }
    ensures value { IfOk result (IsValue arith.now values.now) }
    ensures cause { IfErr result (IsCause arith.now values.now) }
{
    run(alloc, arith.code.as_slice(), values)
}
