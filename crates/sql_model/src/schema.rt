//! The rules of a schema.

ghost use Rattle.std.specs.Prelude.{◌≡◌, IfOk, map, slice_get, length, nat_lt};
ghost use Rattle.std.specs.List.{list_all};
ghost use Rattle.sql_model.specs.SqlNames.{sql_name_test};
ghost use Rattle.sql_model.specs.Tables.{are_distinct, column_count_test, column_names, column_names_test};
ghost use Rattle.sql_model.specs.Tables.{foreign_key_test, foreign_test, is_not_null, key_not_null_test};
ghost use Rattle.sql_model.specs.Tables.{key_places_test, schema_test};

use crate::foreign::MAX_FOREIGN;
use crate::repeats::has_twice;
use crate::sql_names::is_sql_name;
use crate::table::{Columns, Foreigns, Schema};
use ldv_value::{MAX_COLUMNS, Places};
use std::alloc::{AllocError, Global};

/// Whether a schema meets the rules: the number and the names of its columns, its key and its foreign keys.
pub fn meets_schema(alloc: Global, schema: &Schema) -> Result<bool, AllocError>
    ensures { IfOk result (λ holds. holds ≡ schema_test schema.now) }
{
    if !meets_column_count(&schema.columns) {
        return Ok(false);
    }
    if !meets_column_names(alloc, &schema.columns)? {
        return Ok(false);
    }
    if !meets_key_places(alloc, &schema.columns, &schema.key)? {
        return Ok(false);
    }
    if !is_key_not_null(&schema.columns, &schema.key) {
        return Ok(false);
    }
    meets_foreign(alloc, &schema.columns, &schema.foreign)
}

// Whether there are at most 16 foreign keys, each with places of columns, from 0, none of them twice.
fn meets_foreign(alloc: Global, columns: &Columns, foreigns: &Foreigns) -> Result<bool, AllocError>
    ensures { IfOk result (λ holds. holds ≡ foreign_test columns.now foreigns.now) }
{
    if foreigns.len() > MAX_FOREIGN {
        return Ok(false);
    }
    each_foreign_placed(alloc, columns, foreigns)
}

fn each_foreign_placed(
    alloc: Global,
    columns: &Columns,
    foreigns: &Foreigns,
) -> Result<bool, AllocError>
    ensures { IfOk result (λ holds. holds ≡ list_all (foreign_key_test columns.now) foreigns.now) }
{
    for foreign in foreigns.items() {
        if !meets_key_places(alloc, columns, &foreign.columns)? {
            return Ok(false);
        }
    }
    Ok(true)
}

/// Whether there are 1 to 64 columns.
pub fn meets_column_count(columns: &Columns) -> bool
    ensures { result ≡ column_count_test columns.now }
{
    1 <= columns.len() && columns.len() <= MAX_COLUMNS
}

/// Whether each column has a valid name (`is_sql_name`), and no two have the same.
pub fn meets_column_names(alloc: Global, columns: &Columns) -> Result<bool, AllocError>
    ensures { IfOk result (λ holds. holds ≡ column_names_test columns.now) }
{
    if !are_sql_names(columns) {
        return Ok(false);
    }
    are_distinct(alloc, columns)
}

// Whether no two columns have the same name.
pub(crate) fn are_distinct(alloc: Global, columns: &Columns) -> Result<bool, AllocError>
    ensures { IfOk result (λ holds. holds ≡ are_distinct columns.now) }
{
    let names = names_of(alloc, columns)?;
    Ok(!has_twice(alloc, names)?)
}

fn are_sql_names(columns: &Columns) -> bool
    ensures { result ≡ list_all (λ column. sql_name_test column.name) columns.now }
{
    columns
        .items()
        .iter()
        .all(|column| is_sql_name(column.name.as_str()))
}

fn names_of<'a>(alloc: Global, columns: &'a Columns) -> Result<Vec<&'a str>, AllocError>
    ensures { IfOk result (λ names. map (λ name. name.now) names.items ≡ column_names columns.now) }
{
    let mut names = Vec::with_capacity(alloc, columns.len())?;
    for column in columns.items() {
        names.push(column.name.as_str())?;
    }
    Ok(names)
}

// Whether a key has places of columns, from 0, none of them twice.
fn meets_key_places(alloc: Global, columns: &Columns, key: &Places) -> Result<bool, AllocError>
    ensures { IfOk result (λ holds. holds ≡ key_places_test columns.now key.now) }
{
    if !are_places(columns, key) {
        return Ok(false);
    }
    let places = key.copy()?;
    Ok(!has_twice(alloc, places.into_vec())?)
}

fn are_places(columns: &Columns, key: &Places) -> bool
    ensures { result ≡ list_all (λ place. nat_lt place (length columns.now)) key.now }
{
    let count = columns.len();
    key.items().iter().all(|place| *place < count)
}

/// Whether each column of a key is NOT NULL. `key` has the places of the columns, from 0.
pub fn is_key_not_null(columns: &Columns, key: &Places) -> bool
    ensures { result ≡ key_not_null_test columns.now key.now }
{
    key.items().iter().all(|place| is_not_null(columns, *place))
}

fn is_not_null(columns: &Columns, place: usize) -> bool
    ensures { result ≡ is_not_null (slice_get columns.now place) }
{
    match columns.get(place) {
        None => false,
        Some(column) => column.not_null,
    }
}
