//! The text of a generated table.
ghost use Rattle.std.specs.Prelude.{◌≡◌, ◌++◌, ◌+◌, ◌≤◌, ◌^◌, ℕ, OnOk, IfOk, codes, decimal, length};
ghost use Rattle.frac_core.specs.Limits.{most_rows};
ghost use Rattle.table_maker.specs.Tables.{column_name, header_line, number_after, record_line, table_of};

use crate::generator::Generator;
use frac_core::OutOfMemory;
use itoa::Buffer;
use std::alloc::Global;

// Adds bytes to a table.
fn put(table: &mut Vec<u8>, bytes: &[u8]) -> Result<(), OutOfMemory>
    ensures { OnOk result (table.new.items ≡ table.old.items ++ bytes.now) }
{
    match table.extend_from_slice(bytes) {
        Ok(()) => Ok(()),
        Err(_) => Err(OutOfMemory),
    }
}

// Adds a whole number in decimal digits.
fn put_count(table: &mut Vec<u8>, count: u32) -> Result<(), OutOfMemory>
    ensures { OnOk result (table.new.items ≡ table.old.items ++ decimal count) }
{
    put(table, Buffer::new().format(count).as_bytes())
}

// Adds the name of a column, which is counted from 1, behind a comma.
fn put_name(table: &mut Vec<u8>, column: u32) -> Result<(), OutOfMemory>
    ensures { OnOk result (table.new.items ≡ table.old.items ++ column_name column) }
{
    put(table, b",x")?;
    put_count(table, column)
}

// Adds the header.
fn put_header(table: &mut Vec<u8>, columns: u32) -> Result<(), OutOfMemory>
    requires { columns ≤ 100 }
    ensures { OnOk result (table.new.items ≡ table.old.items ++ header_line columns) }
{
    put(table, b"y")?;
    for column in 0..columns {
        put_name(table, column + 1)?;
    }
    put(table, b"\n")
}

// Adds a comma and a cell.
fn put_cell(table: &mut Vec<u8>, cell: u32) -> Result<(), OutOfMemory>
    ensures { OnOk result (table.new.items ≡ table.old.items ++ (codes "," ++ decimal cell)) }
{
    put(table, b",")?;
    put_count(table, cell)
}

// Adds a record of the generator's next cells.
fn put_record(
    table: &mut Vec<u8>,
    generator: &mut Generator,
    columns: u32,
) -> Result<(), OutOfMemory>
    ensures text { OnOk result ((number k : ℕ) → generator.old.number ≡ number_after number k → table.new.items ≡ table.old.items ++ record_line number columns (k + 1)) }
    ensures number { OnOk result ((number k : ℕ) → generator.old.number ≡ number_after number k → generator.new.number ≡ number_after number (k + (columns + 1))) }
{
    let first = generator.next_cell();
    put_count(table, first)?;
    for _ in 0..columns {
        let cell = generator.next_cell();
        put_cell(table, cell)?;
    }
    put(table, b"\n")
}

/// The table of so many records, and of so many columns beside the response, as bytes of CSV: the header
/// `y,x1,x2` and so on, and records of whole numbers below 1,000, which the number determines; 2^26 bytes at
/// most. It refuses only for memory.
pub fn make(alloc: Global, number: u32, rows: u32, columns: u32) -> Result<Vec<u8>, OutOfMemory>
    requires rows { rows ≤ most_rows }
    requires columns { columns ≤ 100 }
    ensures is { IfOk result (λ table. table.items ≡ table_of number rows columns) }
    ensures short { IfOk result (λ table. length table.items ≤ 2 ^ 26) }
{
    let mut table = Vec::new(alloc);
    let mut generator = Generator::new(number);
    put_header(&mut table, columns)?;
    for _ in 0..rows {
        put_record(&mut table, &mut generator, columns)?;
    }
    Ok(table)
}
