//! The tables of a package as those of its own world.

ghost use Rattle.std.specs.Prelude.{◌≡◌, map, IfOk};
ghost use Rattle.run_model.specs.Package.{own_row, own_table};

use crate::package::{PackedRow, PackedRows, PackedTable, PackedTables};
use sql_model::{Table, TableRow, TableRows, Tables};
use std::alloc::{AllocError, Global};

fn own_row_of(row: PackedRow) -> TableRow
    ensures { result ≡ own_row row }
{
    let PackedRow {
        number,
        statement: _,
        rule: _,
        values,
    } = row;
    TableRow { number, values }
}

fn own_rows_of(alloc: Global, packed: PackedRows) -> Result<TableRows, AllocError>
    ensures { IfOk result (λ rows. rows ≡ map own_row packed) }
{
    let mut rows = TableRows::with_capacity(alloc, packed.len())?;
    for row in packed.into_vec() {
        rows.push(own_row_of(row))?;
    }
    Ok(rows)
}

fn own_table_of(alloc: Global, table: PackedTable) -> Result<Table, AllocError>
    ensures { IfOk result (λ own. own ≡ own_table table) }
{
    let PackedTable {
        name,
        schema,
        next,
        rows,
    } = table;
    Ok(Table {
        name,
        schema,
        rows: own_rows_of(alloc, rows)?,
        next,
    })
}

/// The tables of a package's own world. They are those of the package, whose rows lose the reasons why they
/// are in it. Values are moved and never copied. `AllocError` means out of memory only.
pub fn own_tables_of(alloc: Global, packed: PackedTables) -> Result<Tables, AllocError>
    ensures { IfOk result (λ tables. tables ≡ map own_table packed) }
{
    let mut tables = Tables::with_capacity(alloc, packed.len())?;
    for table in packed.into_vec() {
        tables.push(own_table_of(alloc, table)?)?;
    }
    Ok(tables)
}
