//! Rows and costs.
ghost use Rattle.std.specs.Prelude.{◌≡◌, ◌≤◌, ◌+◌, ◌^◌, ◌<◌, ◌++◌, All, IfOk, OnOk, IfErr, length, map, replicate, zip, pos};
ghost use Rattle.rational_laws.specs.Rational.{whole};
ghost use Rattle.frac_core.specs.Values.{exact};
ghost use Rattle.loss_model.specs.Problem.{IsWellShaped};
ghost use Rattle.loss_model.specs.Values.{exact_row};
ghost use Rattle.rq_program.specs.Programs.{data_row, penalty_row, rows_of, columns_of, AreTogether};
ghost use Rattle.rq_program.specs.Costs.{HasDataRows};
ghost use Rattle.rq_program.specs.Faults.{row_count, HasCause};

use crate::fault::ProgramFault;
use design_matrix::{Design, DesignRow};
use frac_core::{Exact, Frac128, List, MOST_COLUMNS, MOST_ROWS};
use loss_model::{Problem, Row};
use std::alloc::Global;
use tv_penalty::{PenaltyRow, Smoothing};

/// The problem of a design and of what the smooths of its formula add to it.
///
/// The design's rows stand first, each with its own entries and then those of the smooths; a row of
/// weight `w` costs `w*theta` per unit above the fit and `w*(1-theta)` below it. The penalty rows
/// follow, with the entry 0 in the design's columns, the response 0, and the cost lambda on both
/// sides (Koenker 2005; Koenker, Ng and Portnoy 1994). There is at least one column in all. Where the
/// weights are above 0, the rows of the design are data rows of the problem.
///
/// `TooManyRows` comes exactly past 16,384 rows of both kinds, and then `TooManyColumns` exactly past
/// 128 columns.
pub fn problem(
    alloc: Global,
    design: &Design,
    smoothing: &Smoothing,
) -> Result<Problem<Frac128>, ProgramFault>
    requires { AreTogether design.now smoothing.now }
    ensures shaped { IfOk result IsWellShaped }
    ensures columns { IfOk result (λ p. p.columns ≡ columns_of design.now smoothing.now) }
    ensures rows { IfOk result (λ p. map exact_row p.rows ≡ rows_of design.now smoothing.now) }
    ensures data_rows { IfOk result (HasDataRows design.now smoothing.now) }
    ensures cause { IfErr result (HasCause design.now smoothing.now) }
{
    let width = design.names.as_slice().len();
    let columns = width + smoothing.names.as_slice().len();
    let count = design.rows.as_slice().len() + smoothing.rows.as_slice().len();
    if count > MOST_ROWS as usize {
        return Err(ProgramFault::TooManyRows);
    }
    if columns > MOST_COLUMNS as usize {
        return Err(ProgramFault::TooManyColumns);
    }
    let mut rows = Vec::with_capacity(alloc, count)?;
    put_data_rows(
        alloc,
        design.rows.as_slice(),
        smoothing.columns.as_slice(),
        &mut rows,
    )?;
    put_penalty_rows(alloc, width, smoothing.rows.as_slice(), &mut rows)?;
    Ok(Problem {
        columns: columns as u32,
        rows: List::from(rows),
    })
}

// Adds a row for each row of a design, with its entries of the smooths.
fn put_data_rows(
    alloc: Global,
    design: &[DesignRow],
    smooth: &[List<Frac128>],
    rows: &mut Vec<Row<Frac128>>,
) -> Result<(), ProgramFault>
    requires { length smooth.now ≡ length design.now }
    ensures added { OnOk result (map exact_row rows.new.items
        ≡ map exact_row rows.old.items ++ map data_row (zip design.now smooth.now)) }
    ensures refused { IfErr result (λ fault. fault ≡ ProgramFault.OutOfMemory) }
{
    for (index, row) in design.iter().enumerate() {
        rows.push(data_row(alloc, row, smooth[index].as_slice())?)?;
    }
    Ok(())
}

fn data_row(
    alloc: Global,
    row: &DesignRow,
    smooth: &[Frac128],
) -> Result<Row<Frac128>, ProgramFault>
    ensures made { IfOk result (λ r. exact_row r ≡ data_row (row.now, smooth.now)) }
    ensures refused { IfErr result (λ fault. fault ≡ ProgramFault.OutOfMemory) }
{
    let mut x = Vec::with_capacity(alloc, row.x.as_slice().len() + smooth.len())?;
    x.extend_from_slice(row.x.as_slice())?;
    x.extend_from_slice(smooth)?;
    Ok(Row {
        x: List::from(x),
        y: row.y,
        up0: Frac128::zero(),
        up1: row.weight,
        down0: row.weight,
        down1: row.weight.neg(),
    })
}

// Adds a row for each penalty.
fn put_penalty_rows(
    alloc: Global,
    width: usize,
    penalties: &[PenaltyRow],
    rows: &mut Vec<Row<Frac128>>,
) -> Result<(), ProgramFault>
    ensures added { OnOk result (map exact_row rows.new.items
        ≡ map exact_row rows.old.items ++ map (penalty_row width) penalties.now) }
    ensures refused { IfErr result (λ fault. fault ≡ ProgramFault.OutOfMemory) }
{
    for penalty in penalties {
        rows.push(penalty_row(alloc, width, penalty)?)?;
    }
    Ok(())
}

fn penalty_row(
    alloc: Global,
    width: usize,
    penalty: &PenaltyRow,
) -> Result<Row<Frac128>, ProgramFault>
    ensures made { IfOk result (λ r. exact_row r ≡ penalty_row width penalty.now) }
    ensures refused { IfErr result (λ fault. fault ≡ ProgramFault.OutOfMemory) }
{
    let mut x = vec![in alloc; Frac128::zero(); width]?;
    x.extend_from_slice(penalty.x.as_slice())?;
    Ok(Row {
        x: List::from(x),
        y: Frac128::zero(),
        up0: penalty.lambda,
        up1: Frac128::zero(),
        down0: penalty.lambda,
        down1: Frac128::zero(),
    })
}
