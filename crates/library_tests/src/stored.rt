//! Stores of the table t.

ghost use Rattle.std.specs.Prelude.{◌≡◌, IfOk, true};
ghost use Rattle.sql_model.specs.Tables.{have_distinct_columns, is_database};

use crate::rows::values_of_rows;
use crate::schemas::schema;
use crate::validity::{have_distinct_columns, is_one_table};
use ldv_value::Utf8;
use sql_model::{Table, TableRow, TableRows, Tables};
use std::alloc::{AllocError, Global};
use std::process::Abort;
use table_store::Store;

fn table_row(alloc: Global, number: u32) -> Result<TableRow, AllocError> {
    let values = values_of_rows(alloc, &[number])?;
    Ok(TableRow { number, values })
}

// The rows 0 to 4 of t.
fn table_rows(alloc: Global) -> Result<TableRows, AllocError> {
    let mut rows = TableRows::new(alloc);
    for number in 0..5 {
        rows.push(table_row(alloc, number)?)?;
    }
    Ok(rows)
}

/// The table t with the rows 0 to 4.
pub(crate) fn tables(alloc: Global) -> Result<Tables, AllocError> {
    let name = Utf8::of(alloc, "t")?;
    let schema = schema(alloc)?;
    let rows = table_rows(alloc)?;
    let mut tables = Tables::new(alloc);
    tables.push(Table {
        name,
        schema,
        rows,
        next: 5,
    })?;
    Ok(tables)
}

/// Ends the test if the tables are no database, or two columns of one table have the same name.
pub(crate) fn expect_database(
    rt: &impl Abort,
    alloc: Global,
    tables: &[Table],
) -> Result<(), AllocError>
    ensures database { IfOk result (λ none. is_database tables.now ≡ true) }
    ensures distinct { IfOk result (λ none. have_distinct_columns tables.now ≡ true) }
{
    assert!(rt; is_one_table(alloc, tables)?);
    assert!(rt; have_distinct_columns(alloc, tables)?);
    Ok(())
}

/// The store of t with the rows 0 to 4.
pub(crate) fn store_of_t(rt: &impl Abort, alloc: Global) -> Result<Store, AllocError> {
    let tables = tables(alloc)?;
    expect_database(rt, alloc, tables.items())?;
    Store::of_tables(alloc, tables)
}
