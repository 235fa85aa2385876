//! The test whether tables are a database. An engine or a store takes no other tables.

ghost use Rattle.std.specs.Prelude.{◌≡◌, ◌&&◌, IfOk, nat_le, nat_lt};
ghost use Rattle.std.specs.List.{list_all};
ghost use Rattle.ldv_value.specs.Limits.{max_next};
ghost use Rattle.sql_model.specs.ForeignKeys.{have_parents};
ghost use Rattle.sql_model.specs.Scope.{catalog_of};
ghost use Rattle.sql_model.specs.Tables.{are_tables, have_distinct_columns, is_database, is_row};
ghost use Rattle.sql_model.specs.Tables.{is_valid_table, numbers_test};

use crate::foreign::have_parents;
use crate::rows::are_rows;
use crate::schema::are_distinct;
use crate::table::{Table, TableRow, Tables};
use crate::unique::has_key_twice;
use ldv_value::is_strictly_sorted;
use std::alloc::{AllocError, Global};

/// Whether tables are a database, and no table has two columns of one name. In a database the tables are
/// strictly increasing by name. The rows of each have strictly increasing numbers below that of the next new
/// row, a fitting value for each column, and pairwise different keys. Each foreign key has a parent with a
/// key that it fits. The test doesn't look at the references of rows. `AllocError` means only that memory ran
/// out.
pub fn is_database(alloc: Global, tables: &Tables) -> Result<bool, AllocError>
    ensures { IfOk result (λ holds.
        holds ≡ (is_database tables.now && have_distinct_columns tables.now)) }
{
    if !are_tables(alloc, tables)? {
        return Ok(false);
    }
    if !are_with_parents(tables.items()) {
        return Ok(false);
    }
    have_distinct_columns(alloc, tables)
}

fn are_with_parents(tables: &[Table]) -> bool
    ensures { result ≡ have_parents (catalog_of tables.now) }
{
    have_parents(tables)
}

fn are_tables(alloc: Global, tables: &Tables) -> Result<bool, AllocError>
    ensures { IfOk result (λ holds. holds ≡ are_tables tables.now) }
{
    if !is_strictly_sorted(tables.items()) {
        return Ok(false);
    }
    are_valid(alloc, tables)
}

fn are_valid(alloc: Global, tables: &Tables) -> Result<bool, AllocError>
    ensures { IfOk result (λ holds. holds ≡ list_all is_valid_table tables.now) }
{
    for table in tables.items() {
        if !is_valid_table(alloc, table)? {
            return Ok(false);
        }
    }
    Ok(true)
}

fn is_valid_table(alloc: Global, table: &Table) -> Result<bool, AllocError>
    ensures { IfOk result (λ holds. holds ≡ is_valid_table table.now) }
{
    if !are_valid_rows(table) {
        return Ok(false);
    }
    Ok(!has_key_twice(alloc, &table.schema.key, table.rows.items())?)
}

fn are_valid_rows(table: &Table) -> bool
    ensures { result ≡ (nat_le table.now.next max_next
        && numbers_test (λ row. row.number) table.now.next table.now.rows
        && list_all (λ row. is_row table.now.schema.columns row.values) table.now.rows) }
{
    table.next <= u32::MAX
        && are_numbered(table.next, table.rows.items())
        && are_rows(&table.schema.columns, table.rows.items())
}

fn are_numbered(next: u32, rows: &[TableRow]) -> bool
    ensures { result ≡ numbers_test (λ row. row.number) next rows.now }
{
    is_strictly_sorted(rows) && are_below(next, rows)
}

fn are_below(next: u32, rows: &[TableRow]) -> bool
    ensures { result ≡ list_all (λ row. nat_lt row.number next) rows.now }
{
    rows.iter().all(|row| row.number < next)
}

fn have_distinct_columns(alloc: Global, tables: &Tables) -> Result<bool, AllocError>
    ensures { IfOk result (λ holds. holds ≡ have_distinct_columns tables.now) }
{
    for table in tables.items() {
        if !are_distinct(alloc, &table.schema.columns)? {
            return Ok(false);
        }
    }
    Ok(true)
}
