//! The rows that may come before a mover.
//!
//! Most rows surely don't, by the leading bits of their ratios, so that of all rows these few are looked at further: in search of the
//! row that enters, and in its test.
ghost use Rattle.std.specs.Prelude.{◌≡◌, ◌<◌, length, IfOk, IsTrue};
ghost use Rattle.whole_steps.specs.Lines.{IsFullLine, IsMover};
ghost use Rattle.whole_steps.specs.Rivals.{AreMarked, IsRivals};

use crate::full_line::FullLine;
use crate::line::Mover;
use frac_core::List;
use std::alloc::Global;
use whole_inverse::{Obstacle, WholeInverse, room_for};

/// A mover, and by row whether it may come before that.
#[derive(Drop)]
pub struct Rivals {
    pub mover: Mover<u128>,
    pub marks: List<bool>,
}

impl<'a> FullLine<'a, i64, WholeInverse, i128> {
    /// By row, whether it may come before a mover.
    fn marks(&self, alloc: Global, mover: &Mover<u128>) -> Result<List<bool>, Obstacle>
        requires full { IsFullLine self.now }
        requires mover { IsMover self.now.line mover.now }
        ensures { IfOk result (AreMarked self.now.line mover.now.row) }
    {
        let rows = self.line.sides.len();
        let mut made = room_for(alloc, rows)?;
        for row in 0..rows {
            made.add(!self.comes_after(mover, row as u32))?;
        }
        Ok(made)
    }

    /// A mover with its rivals.
    pub(crate) fn rivals(&self, alloc: Global, mover: Mover<u128>) -> Result<Rivals, Obstacle>
        requires full { IsFullLine self.now }
        requires mover { IsMover self.now.line mover }
        ensures { IfOk result (IsRivals self.now.line) }
    {
        let marks = self.marks(alloc, &mover)?;
        Ok(Rivals { mover, marks })
    }

    /// Whether a mover comes no later than another one, so that its rivals are among that one's.
    pub(crate) fn is_within(&self, target: Mover<u128>, rivals: &Rivals) -> Result<bool, Obstacle>
        requires full { IsFullLine self.now }
        requires target { IsMover self.now.line target }
        requires rivals { IsRivals self.now.line rivals.now }
        ensures { IfOk result (λ b. IsTrue b → AreMarked self.now.line target.row rivals.now.marks) }
    {
        if target.row == rivals.mover.row {
            return Ok(true);
        }
        let before = self.line.precedes(target, rivals.mover)?;
        Ok(before)
    }
}
