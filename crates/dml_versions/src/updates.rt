//! The new values of updated rows.

ghost use Rattle.std.specs.Prelude.{◌≡◌, List as Items, map, IfOk};
ghost use Rattle.dml_versions.specs.inner.Finding.{row_of};
ghost use Rattle.dml_versions.specs.inner.Making.{place_set, AreSetsPlaced, value_by_set, values_by_set};
ghost use Rattle.sql_model.specs.Changes.{updated_row};
ghost use Rattle.sql_model.specs.Scope.{InScope};

use crate::found::FoundRows;
use ldv_value::{CopyItem, List, PlaceLists, Value, Values};
use sql_model::{Column, Set, Sets, TableRow, TableRows, Update, value_of};
use std::alloc::{AllocError, Global};

/// The matched rows with the new values that an UPDATE gives them. `placed` has the places of the columns in
/// each SET.
pub(crate) fn updated_rows(
    alloc: Global,
    columns: &[Column],
    update: &Update,
    placed: &PlaceLists,
    found: &FoundRows,
) -> Result<TableRows, AllocError>
    ensures { IfOk result (λ made. (scope : Items InScope) → AreSetsPlaced scope update.now.sets placed.now
        → made ≡ map (updated_row scope update.now columns.now) (map row_of found.now)) }
{
    let sources = sources_set(alloc, update.sets.items(), columns)?;
    let mut made = List::with_capacity(alloc, found.len())?;
    for row in found.items() {
        made.push(TableRow {
            number: row.number,
            values: updated_values(alloc, &update.sets, placed, sources.as_slice(), &row.values)?,
        })?;
    }
    Ok(made)
}

// The new values of a row.
fn updated_values(
    alloc: Global,
    sets: &Sets,
    placed: &PlaceLists,
    sources: &[Option<usize>],
    values: &Values,
) -> Result<Values, AllocError>
    ensures { IfOk result (λ made. (scope : Items InScope) → AreSetsPlaced scope sets.now placed.now
        → made ≡ values_by_set scope sets.now sources.now values.now) }
{
    let mut made = List::with_capacity(alloc, sources.len())?;
    let mut left = sources;
    let mut right = values.items();
    'cells: loop {
        match left {
            [] => return Ok(made),
            [source, sources @ ..] => match right {
                [] => return Ok(made),
                [value, others @ ..] => {
                    made.push(updated_value(alloc, sets, placed, *source, values, value)?)?;
                    left = sources;
                    right = others;
                }
            },
        }
    }
}

// The new value of a column; the old one where no SET is there for it.
fn updated_value(
    alloc: Global,
    sets: &Sets,
    placed: &PlaceLists,
    source: Option<usize>,
    values: &Values,
    old: &Value,
) -> Result<Value, AllocError>
    ensures { IfOk result (λ value. (scope : Items InScope) → AreSetsPlaced scope sets.now placed.now
        → value ≡ value_by_set scope sets.now values.now (source, old.now)) }
{
    match source {
        None => old.copy_item(alloc),
        Some(place) => match sets.get(place) {
            None => old.copy_item(alloc),
            Some(set) => match placed.get(place) {
                None => old.copy_item(alloc),
                Some(places) => value_of(alloc, &set.expr, values, places),
            },
        },
    }
}

// For each column, the place of its SET; none where it has none.
fn sources_set(
    alloc: Global,
    sets: &[Set],
    columns: &[Column],
) -> Result<Vec<Option<usize>>, AllocError>
    ensures { IfOk result (λ sources. sources.items ≡ map (place_set sets.now) columns.now) }
{
    let mut sources = Vec::with_capacity(alloc, columns.len())?;
    for column in columns {
        sources.push(place_set(sets, column))?;
    }
    Ok(sources)
}

fn place_set(sets: &[Set], column: &Column) -> Option<usize>
    ensures { result ≡ place_set sets.now column.now }
{
    sets.iter()
        .position(|set| set.column.as_str() == column.name.as_str())
}
