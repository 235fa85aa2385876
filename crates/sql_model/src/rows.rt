//! Whether rows are rows of a table, by the rules of `specs/Tables.antt`.

ghost use Rattle.std.specs.Prelude.{◌≡◌};
ghost use Rattle.std.specs.List.{list_all};
ghost use Rattle.sql_model.specs.Tables.{has_kind, allows, fits, each_value, is_row, is_short};

use crate::table::{Column, Columns};
use crate::unique::HasValues;
use ldv_value::{TEXT_LIMIT, Value, Values};

/// Whether each row has a value for each column, and each value fits.
pub fn are_rows<R: HasValues>(columns: &Columns, rows: &[R]) -> bool
    ensures { result ≡ list_all (λ row. is_row columns.now (R.cells row)) rows.now }
{
    rows.iter().all(|row| is_row(columns, row.values()))
}

fn is_row(columns: &Columns, values: &Values) -> bool
    ensures { result ≡ is_row columns.now values.now }
{
    values.len() == columns.len() && each_fits(columns, values)
}

fn each_fits(columns: &Columns, values: &Values) -> bool
    ensures { result ≡ each_value fits columns.now values.now }
{
    columns
        .items()
        .iter()
        .zip(values.items().iter())
        .all(|(column, value)| fits(column, value))
}

fn fits(column: &Column, value: &Value) -> bool
    ensures { result ≡ fits column.now value.now }
{
    has_kind(column, value) && allows(column, value)
}

/// Whether a value has its column's kind. NULL has every kind.
pub fn has_kind(column: &Column, value: &Value) -> bool
    ensures { result ≡ has_kind column.now value.now }
{
    match value {
        Value::Null => true,
        Value::Int(_) => !column.text,
        Value::Text(_) => column.text,
    }
}

/// Whether a column allows a value: NULL is refused if the column is NOT NULL.
pub fn allows(column: &Column, value: &Value) -> bool
    ensures { result ≡ allows column.now value.now }
{
    match value {
        Value::Null => !column.not_null,
        Value::Int(_) => true,
        Value::Text(_) => true,
    }
}

/// Whether each text among some values has at most `TEXT_LIMIT` bytes.
pub fn are_short(values: &Values) -> bool
    ensures { result ≡ list_all is_short values.now }
{
    values.items().iter().all(|value| is_short(value))
}

fn is_short(value: &Value) -> bool
    ensures { result ≡ is_short value.now }
{
    match value {
        Value::Null => true,
        Value::Int(_) => true,
        Value::Text(text) => text.len() <= TEXT_LIMIT,
    }
}
