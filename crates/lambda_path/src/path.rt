//! The rows of a path problem.
ghost use Rattle.std.specs.Prelude.{◌≡◌, ◌≤◌, ◌<◌, ◌^◌, ◌++◌, IfErr, IfOk, OnOk, length, map, pos};
ghost use Rattle.rational_laws.specs.Rational.{whole};
ghost use Rattle.frac_core.specs.Values.{exact, value};
ghost use Rattle.loss_model.specs.Problem.{IsWellShaped, sample};
ghost use Rattle.loss_model.specs.Values.{exact_row};
ghost use Rattle.tv_penalty.specs.Operations.{NoneOverflows};
ghost use Rattle.tv_penalty.specs.Smoothings.{exact_penalty, unit_rows};
ghost use Rattle.lambda_path.specs.Faults.{cost_operations, operations_from, path_operations, HasCause};
ghost use Rattle.lambda_path.specs.Paths.{IsPathOf};
ghost use Rattle.lambda_path.specs.Rows.{data_row as data_row_of, penalty_row as penalty_row_of};
ghost use Rattle.lambda_path.specs.Steps.{IsCostFault};

use crate::costs::row_costs;
use crate::fault::PathFault;
use frac_core::{Exact, Frac128, List, MOST_ROWS, OutOfMemory};
use loss_model::{Problem, Row};
use std::alloc::Global;
use tv_penalty::{PenaltyRow, l1_rows};

/// The problem of a path in lambda at the quantile `tau`, whose parameter is lambda.
///
/// The rows of the problem stand first, each with its entries and its response; one of weight `w`, which is its `up1`,
/// costs `w*tau` per unit above the fit and `w*(1-tau)` below it, whatever lambda. Then comes a row for each column from
/// `first` on, with the entry 1 in that column, the response 0 and the cost lambda on both sides. `first` is at most the
/// number of columns.
///
/// `TooManyRows` comes exactly past 16,384 rows of both kinds, and then `Overflow` exactly where an operation of a cost
/// overflows: the first by row, up before down. Its quantity is `PathCost` with the row, and 0 for the cost above the fit,
/// whose term 1 is `w*tau`, or 1 for that below it, whose term 1 is `1-tau` and whose term 2 is `w*(1-tau)`.
pub fn path_problem(
    alloc: Global,
    problem: &Problem<Frac128>,
    first: u32,
    tau: Frac128,
) -> Result<Problem<Frac128>, PathFault>
    requires shaped { IsWellShaped problem.now }
    requires first { first ≤ problem.now.columns }
    ensures shaped { IfOk result IsWellShaped }
    ensures path { IfOk result (λ q. IsPathOf (sample value problem.now) first (exact tau) (sample value q)) }
    ensures fits { OnOk result (NoneOverflows (path_operations problem.now (exact tau))) }
    ensures cause { IfErr result (HasCause problem.now first (exact tau)) }
{
    let penalised = (problem.columns - first) as usize;
    if problem.rows.as_slice().len() + penalised > MOST_ROWS as usize {
        return Err(PathFault::TooManyRows);
    }
    let penalties = unit_penalties(alloc, problem.columns, first)?;
    let mut rows = data_rows(alloc, problem.rows.as_slice(), tau)?;
    put_penalty_rows(alloc, penalties.as_slice(), &mut rows)?;
    Ok(Problem {
        columns: problem.columns,
        rows,
    })
}

// A penalty for each column from the first on.
fn unit_penalties(alloc: Global, columns: u32, first: u32) -> Result<List<PenaltyRow>, OutOfMemory>
    requires { first ≤ columns }
    ensures { IfOk result (λ rows. map exact_penalty rows ≡ unit_rows columns first (whole (pos 1))) }
{
    match l1_rows(alloc, columns, first, Frac128::one()) {
        Ok(rows) => Ok(rows),
        Err(_) => Err(OutOfMemory),
    }
}

// The data rows with their costs at a quantile.
fn data_rows(
    alloc: Global,
    rows: &[Row<Frac128>],
    tau: Frac128,
) -> Result<List<Row<Frac128>>, PathFault>
    requires { length rows.now < 2 ^ 32 }
    ensures made { IfOk result (λ made. map exact_row made ≡ map (data_row_of (exact tau)) rows.now) }
    ensures fits { OnOk result (NoneOverflows (operations_from 0 (exact tau) rows.now)) }
    ensures fault { IfErr result (IsCostFault (operations_from 0 (exact tau) rows.now)) }
{
    let mut made = List::new(alloc);
    for (number, row) in rows.iter().enumerate() {
        made.add(data_row(alloc, number as u32, row, tau)?)?;
    }
    Ok(made)
}

// The data row of this number.
fn data_row(
    alloc: Global,
    number: u32,
    row: &Row<Frac128>,
    tau: Frac128,
) -> Result<Row<Frac128>, PathFault>
    ensures made { IfOk result (λ r. exact_row r ≡ data_row_of (exact tau) row.now) }
    ensures fits { OnOk result (NoneOverflows (cost_operations number (exact row.now.up1) (exact tau))) }
    ensures fault { IfErr result (IsCostFault (cost_operations number (exact row.now.up1) (exact tau))) }
{
    let costs = row_costs(number, row.up1, tau)?;
    let x = List::copy(alloc, row.x.as_slice())?;
    Ok(Row {
        x,
        y: row.y,
        up0: costs.up,
        up1: Frac128::zero(),
        down0: costs.down,
        down1: Frac128::zero(),
    })
}

// Adds a row for each penalty.
fn put_penalty_rows(
    alloc: Global,
    penalties: &[PenaltyRow],
    rows: &mut List<Row<Frac128>>,
) -> Result<(), OutOfMemory>
    ensures { OnOk result (map exact_row rows.new ≡ map exact_row rows.old
        ++ map (λ r. penalty_row_of (exact_penalty r)) penalties.now) }
{
    for penalty in penalties {
        rows.add(penalty_row(alloc, penalty)?)?;
    }
    Ok(())
}

// A penalty whose cost is a multiple of lambda.
fn penalty_row(alloc: Global, penalty: &PenaltyRow) -> Result<Row<Frac128>, OutOfMemory>
    ensures { IfOk result (λ r. exact_row r ≡ penalty_row_of (exact_penalty penalty.now)) }
{
    let x = List::copy(alloc, penalty.x.as_slice())?;
    Ok(Row {
        x,
        y: Frac128::zero(),
        up0: Frac128::zero(),
        up1: penalty.lambda,
        down0: Frac128::zero(),
        down1: penalty.lambda,
    })
}
