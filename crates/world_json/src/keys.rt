//! The fault Key: a key column that may be NULL, or two rows of the same key.

ghost use Rattle.std.specs.Prelude.{◌≡◌, IfOk, map, position};
ghost use Rattle.std.specs.List.{list_all, position_or_len};
ghost use Rattle.sql_model.specs.Scope.{is_column};
ghost use Rattle.sql_model.specs.Tables.{places_named};
ghost use Rattle.world_json.specs.Faults.{foreign_key, is_keyed, is_table_keyed};

use crate::document::{Document, Draft, DraftForeign, DraftForeigns, Drafts};
use ldv_value::{List, Names, Places, Utf8};
use sql_model::{Columns, Foreign, Foreigns, has_key_twice, is_key_not_null};
use std::alloc::{AllocError, Global};

/// Whether every key column is NOT NULL, and no two rows of a table have the same key. `AllocError` means
/// out of memory only.
pub(crate) fn meets_keys(alloc: Global, document: &Document) -> Result<bool, AllocError>
    ensures { IfOk result (λ holds. holds ≡ is_keyed document.now) }
{
    tables_meet_keys(alloc, &document.tables)
}

fn tables_meet_keys(alloc: Global, tables: &Drafts) -> Result<bool, AllocError>
    ensures { IfOk result (λ holds. holds ≡ list_all is_table_keyed tables.now) }
{
    for table in tables.items() {
        if !table_meets_key(alloc, table)? {
            return Ok(false);
        }
    }
    Ok(true)
}

fn table_meets_key(alloc: Global, table: &Draft) -> Result<bool, AllocError>
    ensures { IfOk result (λ holds. holds ≡ is_table_keyed table.now) }
{
    let places = places_of_key(alloc, &table.columns, &table.key)?;
    if !is_key_not_null(&table.columns, &places) {
        return Ok(false);
    }
    Ok(!has_key_twice(alloc, &places, table.rows.items())?)
}

/// The places, from 0, of the columns that a key names. If no column has a name, its place is the number of
/// columns.
pub(crate) fn places_of_key(
    alloc: Global,
    columns: &Columns,
    key: &Names,
) -> Result<Places, AllocError>
    ensures { IfOk result (λ places. places ≡ places_named columns.now key.now) }
{
    let mut places = List::with_capacity(alloc, key.len())?;
    for name in key.items() {
        places.push(place_of_column(columns, name))?;
    }
    Ok(places)
}

/// The foreign keys of a table, made from the names of their columns.
pub(crate) fn foreign_keys(
    alloc: Global,
    columns: &Columns,
    drafts: DraftForeigns,
) -> Result<Foreigns, AllocError>
    ensures { IfOk result (λ foreigns. foreigns ≡ map (foreign_key columns.now) drafts) }
{
    let mut foreigns = List::with_capacity(alloc, drafts.len())?;
    for draft in drafts.into_vec() {
        foreigns.push(foreign_key(alloc, columns, draft)?)?;
    }
    Ok(foreigns)
}

fn foreign_key(alloc: Global, columns: &Columns, draft: DraftForeign) -> Result<Foreign, AllocError>
    ensures { IfOk result (λ foreign. foreign ≡ foreign_key columns.now draft) }
{
    let DraftForeign {
        columns: names,
        parent,
    } = draft;
    Ok(Foreign {
        columns: places_of_key(alloc, columns, &names)?,
        parent,
    })
}

#[tactic(auto, using(ldv_value::proofs::Places::place_or_len))]
fn place_of_column(columns: &Columns, name: &Utf8) -> usize
    ensures { result ≡ position_or_len (is_column name.now) columns.now }
{
    find_column(columns, name).unwrap_or(columns.len())
}

fn find_column(columns: &Columns, name: &Utf8) -> Option<usize>
    ensures { result ≡ position (is_column name.now) columns.now }
{
    columns
        .items()
        .iter()
        .position(|column| column.name == *name)
}
