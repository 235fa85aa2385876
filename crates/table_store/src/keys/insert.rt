//! New rows: their refusals and their numbers.

ghost use Rattle.std.specs.Prelude.{◌≡◌, ℕ, ◌+◌, ◌^◌, ◌<◌, Bool, List, ◌++◌, IfOk, length, zip, nat_lt};
ghost use Rattle.std.specs.List.{list_any};
ghost use Rattle.ldv_value.specs.Limits.{max_next};
ghost use Rattle.sql_model.specs.Changes.{refuses_null, has_null, numbered_rows};

use ldv_value::{List, MAX_NEXT, RowList, Value, Values};
use sql_model::{Column, TableRow, TableRows, is_null};
use std::alloc::{AllocError, Global};

/// Whether a row has NULL in a column that is NOT NULL.
pub(crate) fn any_lacks_value(columns: &[Column], rows: &[Values]) -> bool
    ensures { result ≡ list_any (λ values. list_any refuses_null (zip columns.now values)) rows.now }
{
    rows.iter()
        .any(|values| lacks_value(columns, values.items()))
}

/// Whether a numbered row has NULL in a column that is NOT NULL.
pub(crate) fn any_row_lacks_value(columns: &[Column], rows: &[TableRow]) -> bool
    ensures { result ≡ list_any (has_null columns.now) rows.now }
{
    rows.iter()
        .any(|row| lacks_value(columns, row.values.items()))
}

fn lacks_value(columns: &[Column], values: &[Value]) -> bool
    ensures { result ≡ list_any refuses_null (zip columns.now values.now) }
{
    columns
        .iter()
        .zip(values)
        .any(|(column, value)| refuses_null(column, value))
}

fn refuses_null(column: &Column, value: &Value) -> bool
    ensures { result ≡ refuses_null (column.now, value.now) }
{
    column.not_null && is_null(value)
}

/// Whether the number after that of the last of `count` new rows would be above `MAX_NEXT`.
pub(crate) fn is_full(next: u32, count: usize) -> bool
    ensures { result ≡ nat_lt max_next (next + count) }
{
    count > (MAX_NEXT - next) as usize
}

/// New rows, numbered from `next` on.
pub(crate) fn numbered_rows(
    alloc: Global,
    rows: RowList,
    next: u32,
) -> Result<TableRows, AllocError>
    requires { next + length rows < 2 ^ 32 }
    ensures { IfOk result (λ made. made ≡ numbered_rows next rows) }
{
    let mut made = List::with_capacity(alloc, rows.len())?;
    let mut number = next;
    for values in rows.into_vec() {
        made.push(TableRow { number, values })?;
        number += 1;
    }
    Ok(made)
}
