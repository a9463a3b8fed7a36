//! The values that wait for an operator, and the steps that take them.

ghost use Rattle.std.specs.Prelude.{◌≡◌, ◌∷◌, ◌+◌, ◌<◌, ◌^◌, [], map, pos, slice_index_or, IfErr, IfOk, OnOk};
ghost use Rattle.rational_laws.specs.Rational.{whole};
ghost use Rattle.frac_core.specs.Values.{exact};
ghost use Rattle.formula_arith.specs.declared.fault.ArithFault.TheVariants.{OutOfMemory};
ghost use Rattle.formula_arith.specs.Codes.{numbered};
ghost use Rattle.formula_arith.specs.Evaluations.{NoneOverflows};
ghost use Rattle.formula_arith.specs.Machine.{Halts, act, below, stacked, step_operations, top};

use crate::fault::ArithFault;
use crate::operations::{add, multiply, raise, subtract};
use frac_core::{ArithOp, Exact, Frac128};
use std::alloc::Global;

/// A stack of fractions. Contracts see their values from the top downward, as `stacked`.
#[derive(Drop)]
pub(crate) struct Operands {
    values: Vec<Frac128>,
}

// Two operands.
#[derive(Clone, Copy)]
struct Pair {
    left: Frac128,
    right: Frac128,
}

// The value of a name, or 0 where there is none.
fn value_of(values: &[Frac128], name: u32) -> Frac128
    ensures { exact result ≡ slice_index_or (map exact values.now) name (whole (pos 0)) }
{
    match values.get(name as usize) {
        Some(value) => *value,
        None => Frac128::zero(),
    }
}

/// How many numbered operations a step has.
pub(crate) fn numbered(op: ArithOp) -> u32
    ensures { result ≡ numbered op }
{
    match op {
        ArithOp::Add | ArithOp::Sub | ArithOp::Mul => 1,
        ArithOp::Power { exponent } => exponent.saturating_sub(1),
        _ => 0,
    }
}

impl Operands {
    pub(crate) fn new(alloc: Global) -> Operands
        ensures { stacked result ≡ [] }
    {
        Operands {
            values: Vec::new(alloc),
        }
    }

    pub(crate) fn push(&mut self, value: Frac128) -> Result<(), ArithFault>
        ensures pushed { OnOk result (stacked self.new ≡ exact value ∷ stacked self.old) }
        ensures fault { IfErr result (λ fault. fault ≡ OutOfMemory) }
    {
        match self.values.push(value) {
            Ok(()) => Ok(()),
            Err(_) => Err(ArithFault::OutOfMemory),
        }
    }

    /// Takes the top off, or gives 0 where there is none.
    pub(crate) fn pop(&mut self) -> Frac128
        ensures top { exact result ≡ top (stacked self.old) }
        ensures below { stacked self.new ≡ below (stacked self.old) }
    {
        match self.values.pop() {
            Some(value) => value,
            None => Frac128::zero(),
        }
    }

    // Both operands of an operator, the right one from the top.
    fn pair(&mut self) -> Pair
        ensures left { exact result.left ≡ top (below (stacked self.old)) }
        ensures right { exact result.right ≡ top (stacked self.old) }
        ensures below { stacked self.new ≡ below (below (stacked self.old)) }
    {
        let right = self.pop();
        let left = self.pop();
        Pair { left, right }
    }

    /// What a step pushes in place of its operands, behind so many numbered operations.
    pub(crate) fn act(
        &mut self,
        count: u32,
        op: ArithOp,
        values: &[Frac128],
    ) -> Result<Frac128, ArithFault>
        requires { count + numbered op < 2 ^ 32 }
        ensures value { IfOk result (λ x. exact x ∷ stacked self.new ≡ act (map exact values.now) op (stacked self.old)) }
        ensures fits { OnOk result (NoneOverflows (step_operations op (stacked self.old))) }
        ensures cause { IfErr result (Halts count (step_operations op (stacked self.old))) }
    {
        match op {
            ArithOp::Load { name } => Ok(value_of(values, name)),
            ArithOp::Constant { value } => Ok(value),
            ArithOp::Negate => Ok(self.pop().neg()),
            ArithOp::Add => {
                let Pair { left, right } = self.pair();
                add(count + 1, left, right)
            }
            ArithOp::Sub => {
                let Pair { left, right } = self.pair();
                subtract(count + 1, left, right)
            }
            ArithOp::Mul => {
                let Pair { left, right } = self.pair();
                multiply(count + 1, left, right)
            }
            ArithOp::Power { exponent } => raise(count, self.pop(), exponent),
        }
    }
}
