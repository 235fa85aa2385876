//! The faults RowType and NotNull: a value that doesn't fit its column.

ghost use Rattle.std.specs.Prelude.{◌≡◌, Bool};
ghost use Rattle.std.specs.List.{list_all};
ghost use Rattle.sql_model.specs.Tables.{each_value, has_kind, allows};
ghost use Rattle.sql_model.specs.declared.table.Column.{Column};
ghost use Rattle.ldv_value.specs.declared.value.Value.{Value};
ghost use Rattle.world_json.specs.Faults.{is_typed, is_filled, each_row_value};

use crate::document::{Document, Draft, Drafts};
use ldv_value::{Value, Values};
use sql_model::{Column, Columns, TableRow, allows, has_kind};

/// Whether no text is in an INT column and no number in a TEXT column.
pub(crate) fn meets_kinds(document: &Document) -> bool
    ensures { result ≡ is_typed document.now }
{
    tables_pass::<KindTest>(&document.tables)
}

/// Whether no NULL is in a NOT NULL column.
pub(crate) fn meets_not_null(document: &Document) -> bool
    ensures { result ≡ is_filled document.now }
{
    tables_pass::<NotNullTest>(&document.tables)
}

// A test of a column and the value in it.
trait ValueTest {
    ghost passes: { Column → Value → Bool };

    fn passes(column: &Column, value: &Value) -> bool
        ensures { result ≡ passes column.now value.now };
}

// The value has its column's kind.
struct KindTest;

impl ValueTest for KindTest {
    ghost passes = { has_kind };

    fn passes(column: &Column, value: &Value) -> bool {
        has_kind(column, value)
    }
}

// The value isn't NULL where its column is NOT NULL.
struct NotNullTest;

impl ValueTest for NotNullTest {
    ghost passes = { allows };

    fn passes(column: &Column, value: &Value) -> bool {
        allows(column, value)
    }
}

fn tables_pass<T: ValueTest>(tables: &Drafts) -> bool
    ensures { result ≡ list_all (each_row_value T.passes) tables.now }
{
    tables.items().iter().all(|table| table_passes::<T>(table))
}

fn table_passes<T: ValueTest>(table: &Draft) -> bool
    ensures { result ≡ each_row_value T.passes table.now }
{
    rows_pass::<T>(&table.columns, table.rows.items())
}

fn rows_pass<T: ValueTest>(columns: &Columns, rows: &[TableRow]) -> bool
    ensures { result ≡ list_all (λ row. each_value T.passes columns.now row.values) rows.now }
{
    rows.iter().all(|row| row_passes::<T>(columns, &row.values))
}

fn row_passes<T: ValueTest>(columns: &Columns, row: &Values) -> bool
    ensures { result ≡ each_value T.passes columns.now row.now }
{
    columns
        .items()
        .iter()
        .zip(row.items().iter())
        .all(|(column, value)| T::passes(column, value))
}
