//! Tables.

use ldv_value::{CopyItem, List, Places, Precedes, Utf8, Values};
use std::alloc::{AllocError, Global};

/// A column: its name, whether its kind is TEXT (else INT), and whether it is NOT NULL.
#[derive(Drop)]
pub struct Column {
    pub name: Utf8,
    pub text: bool,
    pub not_null: bool,
}

/// A foreign key: the places of its columns, from 0, and the name of its parent, the table that they refer
/// to. It has as many columns as the parent's key, and both columns at each place are INT or both are TEXT.
#[derive(Drop)]
pub struct Foreign {
    pub columns: Places,
    pub parent: Utf8,
}

/// The schema of a table: its 1 to 64 columns, the places of its key's columns, from 0, and its foreign keys,
/// at most 16. A table with no key column has no key.
#[derive(Drop)]
pub struct Schema {
    pub columns: Columns,
    pub key: Places,
    pub foreign: Foreigns,
}

/// A row with its number, at most 4,294,967,294, which it keeps until it is deleted.
#[derive(Drop)]
pub struct TableRow {
    pub number: u32,
    pub values: Values,
}

/// A table. Its row numbers are strictly increasing and below `next`, the number of the next new row, which
/// is at most 4,294,967,295.
#[derive(Drop)]
pub struct Table {
    pub name: Utf8,
    pub schema: Schema,
    pub rows: TableRows,
    pub next: u32,
}

/// Columns.
pub type Columns = List<Column>;
/// Foreign keys.
pub type Foreigns = List<Foreign>;
/// Schemas.
pub type Schemas = List<Schema>;
/// Rows with their numbers.
pub type TableRows = List<TableRow>;
/// Tables, sorted by name.
pub type Tables = List<Table>;

impl CopyItem for Column {
    fn copy_item(&self, _alloc: Global) -> Result<Self, AllocError> {
        Ok(Column {
            name: self.name.copy()?,
            text: self.text,
            not_null: self.not_null,
        })
    }
}

impl CopyItem for Foreign {
    fn copy_item(&self, _alloc: Global) -> Result<Self, AllocError> {
        Ok(Foreign {
            columns: self.columns.copy()?,
            parent: self.parent.copy()?,
        })
    }
}

impl CopyItem for Schema {
    fn copy_item(&self, _alloc: Global) -> Result<Self, AllocError> {
        Ok(Schema {
            columns: self.columns.copy()?,
            key: self.key.copy()?,
            foreign: self.foreign.copy()?,
        })
    }
}

impl Precedes for TableRow {
    ghost use Rattle.std.specs.Prelude.{nat_lt};

    ghost is_before = { λ a b. nat_lt a.number b.number };

    fn precedes(&self, other: &TableRow) -> bool {
        self.number < other.number
    }
}

impl Precedes for Table {
    ghost use Rattle.sql_model.specs.Tables.{table_precedes};

    ghost is_before = { table_precedes };

    fn precedes(&self, other: &Table) -> bool {
        self.name.precedes(&other.name)
    }
}

impl CopyItem for TableRow {
    fn copy_item(&self, _alloc: Global) -> Result<Self, AllocError> {
        Ok(TableRow {
            number: self.number,
            values: self.values.copy()?,
        })
    }
}

impl CopyItem for Table {
    fn copy_item(&self, alloc: Global) -> Result<Self, AllocError> {
        Ok(Table {
            name: self.name.copy()?,
            schema: self.schema.copy_item(alloc)?,
            rows: self.rows.copy()?,
            next: self.next,
        })
    }
}
