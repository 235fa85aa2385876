//! The schema of the table t.

use ldv_value::{Places, Utf8};
use sql_model::{Column, Columns, Foreigns, Schema};
use std::alloc::{AllocError, Global};

fn column(alloc: Global, name: &str, text: bool, not_null: bool) -> Result<Column, AllocError> {
    let name = Utf8::of(alloc, name)?;
    Ok(Column {
        name,
        text,
        not_null,
    })
}

// k INT NOT NULL, g TEXT and v INT
fn columns(alloc: Global) -> Result<Columns, AllocError> {
    let mut columns = Columns::new(alloc);
    columns.push(column(alloc, "k", false, true)?)?;
    columns.push(column(alloc, "g", true, false)?)?;
    columns.push(column(alloc, "v", false, false)?)?;
    Ok(columns)
}

/// The schema of t: k INT NOT NULL, g TEXT and v INT, the key k, and no foreign key.
pub(crate) fn schema(alloc: Global) -> Result<Schema, AllocError> {
    let columns = columns(alloc)?;
    let mut key = Places::new(alloc);
    key.push(0)?;
    Ok(Schema {
        columns,
        key,
        foreign: Foreigns::new(alloc),
    })
}
