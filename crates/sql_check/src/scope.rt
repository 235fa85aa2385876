//! Schemas by name, and the columns that a name can mean.

ghost use Rattle.std.specs.Prelude.{◌≡◌, ◌++◌, IfOk, OnOk, find, filter, length, position};
ghost use Rattle.std.specs.Option.{option_copied};
ghost use Rattle.sql_model.specs.Scope.{schema_at, columns_of, is_column, has_column, names_source, is_meant};
ghost use Rattle.sql_model.specs.Scope.{scope_of, own_scope, resolves, place_of};
ghost use Rattle.sql_check.specs.inner.Sources.{entries};

use ldv_value::Utf8;
use sql_model::{Catalog, Column, ColumnName, FromItem, Schema};
use std::alloc::{AllocError, Global};
use std::marker::Model;

/// A column that can be meant, under the name of its source.
#[derive(Drop)]
pub(crate) struct Entry<'a> {
    source: &'a Utf8,
    column: &'a Column,
}

impl<'a> Model for Entry<'a> {
    ghost use Rattle.sql_model.specs.Scope.{InScope};

    ghost Value = { InScope };

    ghost view = { λ e. record { source = e.source.now; column = e.column.now } };
}

impl<'a> Entry<'a> {
    /// The column itself.
    pub(crate) fn column(&self) -> &'a Column
        ensures { result.now ≡ self.now.column }
    {
        self.column
    }

    /// Whether a column's name means this one.
    pub(crate) fn is_meant(&self, name: &ColumnName) -> bool
        ensures { result ≡ is_meant name.now self.now }
    {
        self.column.name == name.name && names_source(&name.table, self.source)
    }
}

// Whether a name's table part, where it has one, is the name of a source.
fn names_source(table: &Option<Utf8>, source: &Utf8) -> bool
    ensures { result ≡ names_source table.now source.now }
{
    match table {
        None => true,
        Some(name) => *source == *name,
    }
}

/// The schema of the table with a name; `None` if there is none.
pub(crate) fn schema_at<'a>(catalog: &'a Catalog, name: &Utf8) -> Option<&'a Schema>
    ensures { option_copied result ≡ schema_at name.now catalog.now }
{
    for (place, named) in catalog.names.items().iter().enumerate() {
        match catalog.schemas.get(place) {
            None => return None,
            Some(schema) => {
                if *named == *name {
                    return Some(schema);
                }
            }
        }
    }
    None
}

/// The columns of the table with a name, and none if there is no such table.
pub(crate) fn columns_of<'a>(catalog: &'a Catalog, name: &Utf8) -> &'a [Column]
    ensures { result.now ≡ columns_of (schema_at name.now catalog.now) }
{
    match schema_at(catalog, name) {
        None => &[],
        Some(schema) => schema.columns.items(),
    }
}

/// The column with a name; `None` if there is none.
pub(crate) fn column_at<'a>(columns: &'a [Column], name: &Utf8) -> Option<&'a Column>
    ensures { option_copied result ≡ find (is_column name.now) columns.now }
{
    columns.iter().find(|column| column.name == *name)
}

/// Whether some column has the name.
pub(crate) fn has_column(columns: &[Column], name: &Utf8) -> bool
    ensures { result ≡ has_column columns.now name.now }
{
    columns.iter().any(|column| column.name == *name)
}

/// The columns of the joined row, in FROM order.
pub(crate) fn scope_of<'a>(
    alloc: Global,
    from: &'a [FromItem],
    catalog: &'a Catalog,
) -> Result<Vec<Entry<'a>>, AllocError>
    ensures { IfOk result (λ scope. scope.items ≡ scope_of from.now catalog.now) }
{
    let mut scope = Vec::new(alloc);
    for item in from {
        push_entries(&mut scope, &item.name, columns_of(catalog, &item.table))?;
    }
    Ok(scope)
}

/// The columns of a table under its own name. An UPDATE and a DELETE have these in scope.
pub(crate) fn own_scope<'a>(
    alloc: Global,
    table: &'a Utf8,
    catalog: &'a Catalog,
) -> Result<Vec<Entry<'a>>, AllocError>
    ensures { IfOk result (λ scope. scope.items ≡ own_scope table.now catalog.now) }
{
    let mut scope = Vec::new(alloc);
    push_entries(&mut scope, table, columns_of(catalog, table))?;
    Ok(scope)
}

// Appends the columns of a source.
fn push_entries<'a>(
    scope: &mut Vec<Entry<'a>>,
    source: &'a Utf8,
    columns: &'a [Column],
) -> Result<(), AllocError>
    ensures { OnOk result (scope.new.items ≡ scope.old.items ++ entries source.now columns.now) }
{
    for column in columns {
        scope.push(Entry { source, column })?;
    }
    Ok(())
}

/// Whether a name means exactly one column.
pub(crate) fn resolves(scope: &[Entry], name: &ColumnName) -> bool
    ensures { result ≡ resolves scope.now name.now }
{
    count_meant(scope, name) == 1
}

fn count_meant(scope: &[Entry], name: &ColumnName) -> usize
    ensures { result ≡ length (filter (is_meant name.now) scope.now) }
{
    scope.iter().filter(|entry| entry.is_meant(name)).count()
}

/// The place, from 0, of the column that a name means, or the number of columns if it means none.
#[tactic(auto, using(ldv_value::proofs::Places::place_or_len))]
pub(crate) fn place_of(scope: &[Entry], name: &ColumnName) -> usize
    ensures { result ≡ place_of scope.now name.now }
{
    place_meant(scope, name).unwrap_or(scope.len())
}

fn place_meant(scope: &[Entry], name: &ColumnName) -> Option<usize>
    ensures { result ≡ position (is_meant name.now) scope.now }
{
    scope.iter().position(|entry| entry.is_meant(name))
}
