//! The schemas that a statement is checked against, and the result of the check.

ghost use Rattle.std.specs.Prelude.{◌≡◌, IfOk, map};
ghost use Rattle.sql_model.specs.Scope.{catalog_of};

use crate::statement::Statement;
use crate::table::{Schemas, Table, Tables};
use ldv_value::{CopyItem, List, Names, PlaceLists};
use std::alloc::{AllocError, Global};

/// The names of the tables, sorted, and their schemas in the same order.
#[derive(Drop)]
pub struct Catalog {
    pub names: Names,
    pub schemas: Schemas,
}

/// A checked statement and the places of its columns, from 0. A query has one list per core, with the place
/// of each column name in the joined row, left to right over the items, ON and WHERE, GROUP BY and HAVING,
/// and then one more list, with the places of the ORDER BY keys in the answer row. Any other statement has
/// one list, of places in the table's row. An UPDATE has those of the new values first and then those of
/// WHERE.
#[derive(Drop)]
pub struct Checked {
    pub statement: Statement,
    pub places: PlaceLists,
}

impl Catalog {
    /// The catalog of tables: their names and schemas, in the order of the tables.
    pub fn of(alloc: Global, tables: &Tables) -> Result<Catalog, AllocError>
        ensures { IfOk result (λ catalog. catalog ≡ catalog_of tables.now) }
    {
        Ok(Catalog {
            names: names_of(alloc, tables.items())?,
            schemas: schemas_of(alloc, tables.items())?,
        })
    }
}

fn names_of(alloc: Global, tables: &[Table]) -> Result<Names, AllocError>
    ensures { IfOk result (λ names. names ≡ map (λ table. table.name) tables.now) }
{
    let mut names = Vec::with_capacity(alloc, tables.len())?;
    for table in tables {
        names.push(table.name.copy()?)?;
    }
    Ok(List::of_vec(names))
}

fn schemas_of(alloc: Global, tables: &[Table]) -> Result<Schemas, AllocError>
    ensures { IfOk result (λ schemas. schemas ≡ map (λ table. table.schema) tables.now) }
{
    let mut schemas = Vec::with_capacity(alloc, tables.len())?;
    for table in tables {
        schemas.push(table.schema.copy_item(alloc)?)?;
    }
    Ok(List::of_vec(schemas))
}
