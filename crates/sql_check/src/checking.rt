//! The check of a statement.

ghost use Rattle.sql_model.specs.Places.{checked_of};
ghost use Rattle.sql_check.specs.Gives.{GivesChecked, GivesPlaces};

use crate::clash::has_type_clash;
use crate::columns::has_unknown_column;
use crate::error::CheckStop;
use crate::places::places_of;
use crate::tables::has_unknown_table;
use ldv_value::{CopyItem, PlaceLists};
use sql_model::{Catalog, Checked, Statement};
use std::alloc::Global;

/// A copy of a statement with the places of its columns, if the catalog has its tables and columns and its
/// kinds fit. The names of the catalog are sorted, each with its schema. `NoTable`, `NoColumn` and
/// `TypeClash` are tried in this order, each over the whole statement, and come exactly if
/// `specs/Refusals.antt` of `sql_model` says so; `docs/SQL.md` describes them in words. `NoMemory` may come
/// at any point.
pub fn check(alloc: Global, statement: &Statement, catalog: &Catalog) -> Result<Checked, CheckStop>
    ensures { GivesChecked result (checked_of statement.now catalog.now) }
{
    let places = check_places(alloc, statement, catalog)?;
    let copy = statement.copy_item(alloc)?;
    Ok(Checked {
        statement: copy,
        places,
    })
}

/// The places of a statement's columns, as in the result of `check`, for a caller that needs no copy of the
/// statement. `NoTable`, `NoColumn` and `TypeClash` come exactly if they come from `check`, and `NoMemory`
/// may come at any point.
pub fn check_places(
    alloc: Global,
    statement: &Statement,
    catalog: &Catalog,
) -> Result<PlaceLists, CheckStop>
    ensures { GivesPlaces result statement.now (checked_of statement.now catalog.now) }
{
    if has_unknown_table(alloc, statement, catalog)? {
        return Err(CheckStop::NoTable);
    }
    if has_unknown_column(alloc, statement, catalog)? {
        return Err(CheckStop::NoColumn);
    }
    if has_type_clash(alloc, statement, catalog)? {
        return Err(CheckStop::TypeClash);
    }
    let places = places_of(alloc, statement, catalog)?;
    Ok(places)
}
