//! The columns that one variable brings into a term.
ghost use Rattle.std.specs.Prelude.{◌<◌, ◌≤◌};
ghost use Rattle.frac_core.specs.Limits.{most_rows};
ghost use Rattle.design_matrix.specs.Widths.{levels_held, width_held};

use crate::coded::CodedVariable;

/// One of a variable's columns.
#[derive(Clone, Copy)]
pub(crate) struct Part<'b, 'a> {
    pub(crate) variable: &'b CodedVariable<'a>,
    pub(crate) column: u32,
    ghost there: { column < width_held variable.now.coding variable.now.values },
    ghost few: { levels_held variable.now.values ≤ most_rows },
}
