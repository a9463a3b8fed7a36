//! Problems without some of their columns.
ghost use Rattle.std.specs.Prelude.{◌≡◌, ◌<◌, ◌^◌, All, length, map, IfOk};
ghost use Rattle.loss_model.specs.Problem.{IsWellShaped};
ghost use Rattle.nested_test.specs.Restricted.{restricted_problem, restricted_row as restricted_row_of, without, AreTested};

use frac_core::{Exact, List, OutOfMemory};
use loss_model::{Problem, Row};
use std::alloc::Global;

/// The problem without the tested columns, which ascend and leave a column. Its rows keep their order, their responses and
/// their costs, and its columns their order.
pub fn restricted<F: Exact>(
    alloc: Global,
    full: &Problem<F>,
    tested: &[u32],
) -> Result<Problem<F>, OutOfMemory>
    requires shaped { IsWellShaped full.now }
    requires tested { AreTested full.now.columns tested.now }
    requires left { length tested.now < full.now.columns }
    ensures restricted { IfOk result (λ q. q ≡ restricted_problem tested.now full.now) }
    ensures shaped { IfOk result IsWellShaped }
{
    let rows = restricted_rows(alloc, full.rows.as_slice(), tested)?;
    Ok(Problem {
        columns: full.columns - tested.len() as u32,
        rows,
    })
}

// All rows without them.
fn restricted_rows<F: Exact>(
    alloc: Global,
    rows: &[Row<F>],
    tested: &[u32],
) -> Result<List<Row<F>>, OutOfMemory>
    requires { All (λ r. length r.x < 2 ^ 32) rows.now }
    ensures { IfOk result (λ made. made ≡ map (restricted_row_of tested.now) rows.now) }
{
    let mut made = List::new(alloc);
    for row in rows {
        made.add(restricted_row(alloc, row, tested)?)?;
    }
    Ok(made)
}

fn restricted_row<F: Exact>(
    alloc: Global,
    row: &Row<F>,
    tested: &[u32],
) -> Result<Row<F>, OutOfMemory>
    requires { length row.now.x < 2 ^ 32 }
    ensures { IfOk result (λ r. r ≡ restricted_row_of tested.now row.now) }
{
    let x = entries_without(alloc, row.x.as_slice(), tested)?;
    Ok(Row {
        x,
        y: row.y,
        up0: row.up0,
        up1: row.up1,
        down0: row.down0,
        down1: row.down1,
    })
}

// The entries of a row but for those of tested columns.
fn entries_without<F: Exact>(
    alloc: Global,
    entries: &[F],
    tested: &[u32],
) -> Result<List<F>, OutOfMemory>
    requires { length entries.now < 2 ^ 32 }
    ensures { IfOk result (λ left. left ≡ without tested.now 0 entries.now) }
{
    let mut left = List::new(alloc);
    for (column, entry) in entries.iter().enumerate() {
        let number = column as u32;
        if !tested.contains(&number) {
            left.add(*entry)?;
        }
    }
    Ok(left)
}
