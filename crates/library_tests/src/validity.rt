//! Whether tables are a database: a store takes no others.

ghost use Rattle.std.specs.Prelude.{◌≡◌, ◌&&◌, IfOk, IsTrue, nat_le, nat_lt, true};
ghost use Rattle.std.specs.List.{list_all};
ghost use Rattle.ldv_value.specs.Limits.{max_next};
ghost use Rattle.sql_model.specs.ForeignKeys.{have_parents};
ghost use Rattle.sql_model.specs.Scope.{catalog_of};
ghost use Rattle.sql_model.specs.Tables.{are_distinct, have_distinct_columns, is_database, is_row};
ghost use Rattle.sql_model.specs.Tables.{is_valid_table, numbers_test};

use ldv_value::is_strictly_sorted;
use sql_model::{
    Columns, Table, TableRow, are_rows, has_key_twice, have_parents, meets_column_names,
};
use std::alloc::{AllocError, Global};

/// Whether there is one table, it is valid, and each foreign key has its parent.
#[tactic(auto, using(crate::proofs::OneTable::one_database))]
pub(crate) fn is_one_table(alloc: Global, tables: &[Table]) -> Result<bool, AllocError>
    ensures { IfOk result (λ holds. IsTrue holds → is_database tables.now ≡ true) }
{
    if !are_with_parents(tables) {
        return Ok(false);
    }
    match tables {
        [table] => is_valid_table(alloc, table),
        _ => Ok(false),
    }
}

fn are_with_parents(tables: &[Table]) -> bool
    ensures { result ≡ have_parents (catalog_of tables.now) }
{
    have_parents(tables)
}

/// Whether there is one table, and no two of its columns have the same name.
pub(crate) fn have_distinct_columns(alloc: Global, tables: &[Table]) -> Result<bool, AllocError>
    ensures { IfOk result (λ holds. IsTrue holds → have_distinct_columns tables.now ≡ true) }
{
    match tables {
        [table] => are_distinct(alloc, &table.schema.columns),
        _ => Ok(false),
    }
}

fn are_distinct(alloc: Global, columns: &Columns) -> Result<bool, AllocError>
    ensures { IfOk result (λ holds. IsTrue holds → are_distinct columns.now ≡ true) }
{
    meets_column_names(alloc, columns)
}

fn is_valid_table(alloc: Global, table: &Table) -> Result<bool, AllocError>
    ensures { IfOk result (λ holds. holds ≡ is_valid_table table.now) }
{
    if !are_valid_rows(table) {
        return Ok(false);
    }
    Ok(!has_key_twice(alloc, &table.schema.key, table.rows.items())?)
}

fn are_valid_rows(table: &Table) -> bool
    ensures { result ≡ (nat_le table.now.next max_next
        && numbers_test (λ row. row.number) table.now.next table.now.rows
        && list_all (λ row. is_row table.now.schema.columns row.values) table.now.rows) }
{
    table.next <= u32::MAX
        && are_numbered(table.next, table.rows.items())
        && are_rows(&table.schema.columns, table.rows.items())
}

fn are_numbered(next: u32, rows: &[TableRow]) -> bool
    ensures { result ≡ numbers_test (λ row. row.number) next rows.now }
{
    is_strictly_sorted(rows) && are_below(next, rows)
}

fn are_below(next: u32, rows: &[TableRow]) -> bool
    ensures { result ≡ list_all (λ row. nat_lt row.number next) rows.now }
{
    rows.iter().all(|row| row.number < next)
}
