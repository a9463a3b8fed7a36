//! Codings of factors: how the levels of a factor become columns of a design.
//!
//! A coding of `k` levels is a table with a row for each level. `width` gives the number of its
//! columns, `entry` a number in it, and `label` the name of a column. The first four codings are
//! R's contrasts `contr.treatment`, `contr.SAS`, `contr.sum` and `contr.helmert`; the last has an
//! indicator for each level. Here levels and columns are counted from 0.
//!
//! The crate's one contract: each entry and each name is that of the table in `specs/Coding.antt`.
//! It stands on `frac_core` for texts alone.
//! Its cases stand in `cases`.
//!
//! `design_matrix` calls it so:
//! ```text
//! contrasts::width(self.coding, count as u32)
//! contrasts::label(alloc, self.variable.coding, &levels.texts, name, self.column)
//! ```
#![tactic(auto)]

ghost use Rattle.std.specs.Prelude.{◌≡◌, ◌<◌, ◌≤◌, ◌^◌, ◌++◌, length, IfOk, decimal, string_bytes};
ghost use Rattle.frac_core.specs.Limits.{most_rows};
ghost use Rattle.contrasts.specs.Coding.{width_of, entry_of, label_of};

use frac_core::{OutOfMemory, Text};
use std::alloc::{AllocError, Global};

/// How the levels of a factor are coded.
///
/// The first four are R's contrasts of these names, of one column fewer than there are levels.
/// `Indicator` has a column for each level.
#[derive(Clone, Copy, Debug, PartialEq, Eq)]
pub enum Coding {
    /// The first level is the reference.
    Treatment,
    /// The last level is the reference.
    Sas,
    /// The columns sum to 0 over the levels.
    Sum,
    /// Each level against those before it.
    Helmert,
    /// Each level on its own.
    Indicator,
}

/// The number of columns of a coding of so many levels.
pub fn width(coding: Coding, levels: u32) -> u32
    requires { 1 ≤ levels }
    ensures { result ≡ width_of coding levels }
{
    match coding {
        Coding::Indicator => levels,
        Coding::Treatment | Coding::Sas | Coding::Sum | Coding::Helmert => levels - 1,
    }
}

/// The entry of a column at a level, for a coding of so many levels.
pub fn entry(coding: Coding, levels: u32, level: u32, column: u32) -> i64
    requires few { levels ≤ most_rows }
    requires is_level { level < levels }
    requires is_column { column < width_of coding levels }
    ensures { result ≡ entry_of coding levels level column }
{
    match coding {
        Coding::Treatment => i64::from(level == column + 1),
        Coding::Sas | Coding::Indicator => i64::from(level == column),
        Coding::Sum => {
            if level == column {
                1
            } else if level + 1 == levels {
                -1
            } else {
                0
            }
        }
        Coding::Helmert => {
            if level <= column {
                -1
            } else if level == column + 1 {
                i64::from(column) + 1
            } else {
                0
            }
        }
    }
}

/// The name of a column: the variable, and behind it the level that the column shows, or the
/// column's number, from 1, where it shows none. It refuses only for memory.
pub fn label(
    alloc: Global,
    coding: Coding,
    levels: &[Text],
    variable: &str,
    column: u32,
) -> Result<Text, OutOfMemory>
    requires counted { length levels.now < 2 ^ 32 }
    requires is_column { column < width_of coding (length levels.now) }
    ensures { IfOk result (λ name. name ≡ label_of coding levels.now variable.now column) }
{
    let place = column as usize;
    let spelled = match coding {
        Coding::Treatment => with_level(alloc, variable, levels[place + 1].as_str()),
        Coding::Sas | Coding::Indicator => with_level(alloc, variable, levels[place].as_str()),
        Coding::Sum | Coding::Helmert => with_number(alloc, variable, column + 1),
    };
    match spelled {
        Ok(name) => Ok(Text::from(name)),
        Err(_) => Err(OutOfMemory),
    }
}

fn with_level(alloc: Global, variable: &str, level: &str) -> Result<String, AllocError>
    ensures { IfOk result (λ name. string_bytes name ≡ variable.now ++ level.now) }
{
    format!(in alloc; "{variable}{level}")
}

fn with_number(alloc: Global, variable: &str, number: u32) -> Result<String, AllocError>
    ensures { IfOk result (λ name. string_bytes name ≡ variable.now ++ decimal number) }
{
    format!(in alloc; "{variable}{number}")
}
