//! A problem's numbers in 64 bits, where all of them fit.
ghost use Rattle.std.specs.Prelude.{◌≡◌, ◌↔◌, All, map, IfOk, IfErr, IfSome, IsNone};
ghost use Rattle.frac_core.specs.Values.{narrow_value, value as wide_value};
ghost use Rattle.loss_model.specs.Problem.{IsWellShaped};
ghost use Rattle.loss_model.specs.Widths.{row_by, problem_by, IsNarrow, IsNarrowRow};
ghost use Rattle.loss_model.specs.Unfit.{IsRefusal};

use crate::problem::{Problem, Row};
use frac_core::{Frac64, Frac128, List, OutOfMemory, narrow};
use std::alloc::Global;

/// Why numbers aren't had in 64 bits.
#[derive(Clone, Copy)]
enum Unfit {
    OutOfMemory,
    TooWide,
}

impl From<OutOfMemory> for Unfit {
    ghost use Rattle.std.specs.Prelude.{◌≡◌};
    ghost use Rattle.loss_model.specs.declared.narrowing.Unfit.TheVariants.{OutOfMemory};

    ghost from_gives = { λ _ unfit. unfit ≡ OutOfMemory };

    fn from(_: OutOfMemory) -> Unfit {
        Unfit::OutOfMemory
    }
}

// A number in 64 bits.
fn narrow_number(value: Frac128) -> Result<Frac64, Unfit>
    ensures same { IfOk result (λ made. narrow_value made ≡ wide_value value) }
    ensures refused { IfErr result (IsRefusal (IsNarrow value)) }
{
    match narrow(value) {
        Some(made) => Ok(made),
        None => Err(Unfit::TooWide),
    }
}

// A list of numbers.
fn narrow_list(alloc: Global, values: &[Frac128]) -> Result<List<Frac64>, Unfit>
    ensures same { IfOk result (λ made. map narrow_value made ≡ map wide_value values.now) }
    ensures refused { IfErr result (IsRefusal (All IsNarrow values.now)) }
{
    let mut made = List::new(alloc);
    for value in values {
        made.add(narrow_number(*value)?)?;
    }
    Ok(made)
}

// A row.
fn narrow_row(alloc: Global, row: &Row<Frac128>) -> Result<Row<Frac64>, Unfit>
    ensures same { IfOk result (λ made. row_by narrow_value made ≡ row_by wide_value row.now) }
    ensures refused { IfErr result (IsRefusal (IsNarrowRow row.now)) }
{
    let x = narrow_list(alloc, row.x.as_slice())?;
    Ok(Row {
        x,
        y: narrow_number(row.y)?,
        up0: narrow_number(row.up0)?,
        up1: narrow_number(row.up1)?,
        down0: narrow_number(row.down0)?,
        down1: narrow_number(row.down1)?,
    })
}

// All rows.
fn narrow_rows(alloc: Global, rows: &[Row<Frac128>]) -> Result<List<Row<Frac64>>, Unfit>
    ensures same { IfOk result (λ made. map (row_by narrow_value) made ≡ map (row_by wide_value) rows.now) }
    ensures refused { IfErr result (IsRefusal (All IsNarrowRow rows.now)) }
{
    let mut made = List::new(alloc);
    for row in rows {
        made.add(narrow_row(alloc, row)?)?;
    }
    Ok(made)
}

/// The problem in 64 bits, and `None` exactly where an entry, a response or a cost is beyond these.
pub fn narrow_problem(
    alloc: Global,
    problem: &Problem<Frac128>,
) -> Result<Option<Problem<Frac64>>, OutOfMemory>
    requires { IsWellShaped problem.now }
    ensures same { IfOk result (λ found. IfSome found (λ made. problem_by narrow_value made ≡ problem_by wide_value problem.now)) }
    ensures shaped { IfOk result (λ found. IfSome found IsWellShaped) }
    ensures refused { IfOk result (λ found. IsNone found ↔ ¬ (All IsNarrowRow problem.now.rows)) }
{
    match narrow_rows(alloc, problem.rows.as_slice()) {
        Ok(rows) => Ok(Some(Problem {
            columns: problem.columns,
            rows,
        })),
        Err(Unfit::TooWide) => Ok(None),
        Err(Unfit::OutOfMemory) => Err(OutOfMemory),
    }
}
