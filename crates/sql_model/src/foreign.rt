//! Foreign keys and their parents, by the schemas of the tables alone. No call takes memory.

ghost use Rattle.std.specs.Prelude.{◌≡◌, ℕ, List, map, find, zip};
ghost use Rattle.std.specs.List.{list_all};
ghost use Rattle.std.specs.Option.{option_map};
ghost use Rattle.sql_model.specs.ForeignKeys.{same_kind, fits_place, fits_parent, has_parents, have_parents};
ghost use Rattle.sql_model.specs.Scope.{same_text, schema_at};
ghost use Rattle.sql_model.specs.Types.{Schema};

use crate::table::{Column, Columns, Foreign, Schema, Table};
use ldv_value::Utf8;

/// The most foreign keys that a table may have.
pub const MAX_FOREIGN: usize = 16;

/// A table by its name and its schema.
pub trait NamedSchema {
    /// The name.
    ghost name_of: { Self → List ℕ };

    /// The schema.
    ghost schema_of: { Self → Schema };

    /// The name.
    fn table_name(&self) -> &Utf8
        ensures { result.now ≡ name_of self.now };

    /// The schema.
    fn table_schema(&self) -> &Schema
        ensures { result.now ≡ schema_of self.now };
}

impl NamedSchema for Table {
    ghost name_of = { λ table. table.name };

    ghost schema_of = { λ table. table.schema };

    fn table_name(&self) -> &Utf8 {
        &self.name
    }

    fn table_schema(&self) -> &Schema {
        &self.schema
    }
}

/// Whether each foreign key of some tables has a parent among them. The parent needs a key with as many
/// columns, and both columns at each place are INT or both are TEXT.
pub fn have_parents<T: NamedSchema>(tables: &[T]) -> bool
    ensures { result ≡ have_parents
        (record { names = map T.name_of tables.now; schemas = map T.schema_of tables.now }) }
{
    each_has_parents(tables)
}

fn each_has_parents<T: NamedSchema>(tables: &[T]) -> bool
    ensures { result ≡ list_all
        (λ table. has_parents
        (record { names = map T.name_of tables.now; schemas = map T.schema_of tables.now })
        (T.schema_of table)) tables.now }
{
    tables
        .iter()
        .all(|table| has_parents(tables, table.table_schema()))
}

fn has_parents<T: NamedSchema>(tables: &[T], schema: &Schema) -> bool
    ensures { result ≡ has_parents
        (record { names = map T.name_of tables.now; schemas = map T.schema_of tables.now }) schema.now }
{
    schema.foreign.items().iter().all(|foreign| fits_parent(
        &schema.columns,
        foreign,
        schema_at(tables, &foreign.parent),
    ))
}

// The schema of a table's name.
#[tactic(auto, using(crate::proofs::ParentSchemas::schema_by))]
fn schema_at<'a, T: NamedSchema>(tables: &'a [T], name: &Utf8) -> Option<&'a Schema>
    ensures { option_map (λ schema. schema.now) result ≡ schema_at name.now
        (record { names = map T.name_of tables.now; schemas = map T.schema_of tables.now }) }
{
    match table_of(tables, name) {
        None => None,
        Some(table) => Some(table.table_schema()),
    }
}

fn table_of<'a, T: NamedSchema>(tables: &'a [T], name: &Utf8) -> Option<&'a T>
    ensures { option_map (λ table. table.now) result
        ≡ find (λ table. same_text (T.name_of table) name.now) tables.now }
{
    tables.iter().find(|table| *table.table_name() == *name)
}

fn fits_parent(columns: &Columns, foreign: &Foreign, parent: Option<&Schema>) -> bool
    ensures { result ≡ fits_parent columns.now foreign.now (option_map (λ schema. schema.now) parent.entry) }
{
    match parent {
        None => false,
        Some(parent) => {
            !parent.key.is_empty()
                && foreign.columns.len() == parent.key.len()
                && fits_key(columns, foreign, parent)
        }
    }
}

fn fits_key(columns: &Columns, foreign: &Foreign, parent: &Schema) -> bool
    ensures { result ≡ list_all (fits_place columns.now parent.now.columns)
        (zip foreign.now.columns parent.now.key) }
{
    foreign.columns.items().iter().zip(parent.key.items()).all(|(place, at)| same_kind(
        columns.get(*place),
        parent.columns.get(*at),
    ))
}

// Whether both are there, and both are of INT or both of TEXT.
fn same_kind(column: Option<&Column>, other: Option<&Column>) -> bool
    ensures { result ≡ same_kind (option_map (λ c. c.now) column.entry)
        (option_map (λ c. c.now) other.entry) }
{
    match (column, other) {
        (Some(column), Some(other)) => column.text == other.text,
        _ => false,
    }
}
