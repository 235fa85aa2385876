//! Packages.

ghost use Rattle.std.specs.Prelude.{◌≡◌, IfOk};

use crate::event::Events;
use crate::name::ProcName;
use ldv_value::{Bytes, CopyItem, List, Utf8, Values, Words};
use sql_model::{HasValues, NamedSchema, Reply, Rule, Schema};
use std::alloc::{AllocError, Global};

/// Whether a package has the rows that its run needed, or the recorded replies.
#[derive(Clone, Copy, Debug, PartialEq, Eq)]
pub enum Mode {
    /// It has the needed tables with the needed rows.
    Included,
    /// It has what each process asked, with the replies.
    Excluded,
}

/// All that is needed to run a recorded run again, with its trace.
#[derive(Drop)]
pub struct Package {
    /// Whether it has tables or logs.
    pub mode: Mode,
    /// The path of the first script, and its arguments.
    pub start: Words,
    /// The scheduler's seed.
    pub seed: u64,
    /// The number of steps of the recorded run, 1 to 10,000,000.
    pub steps: u32,
    /// Sorted by path.
    pub files: PackedFiles,
    /// Sorted by name.
    pub tables: PackedTables,
    /// Sorted by process name.
    pub logs: Logs,
    /// The trace of the recorded run, in the order of the steps.
    pub events: Events,
}

/// A needed file: with its content, or without it if the run only needed the file to be there.
#[derive(Drop)]
pub struct PackedFile {
    pub path: Utf8,
    pub content: Option<Bytes>,
}

fn copy_content(content: &Option<Bytes>) -> Result<Option<Bytes>, AllocError>
    ensures { IfOk result (λ copy. copy ≡ content.now) }
{
    match content {
        None => Ok(None),
        Some(bytes) => Ok(Some(bytes.copy()?)),
    }
}

impl CopyItem for PackedFile {
    fn copy_item(&self, _alloc: Global) -> Result<Self, AllocError> {
        Ok(PackedFile {
            path: self.path.copy()?,
            content: copy_content(&self.content)?,
        })
    }
}

/// A needed table with the initial rows that some statement needed, by number. The number of the next row is
/// `next`, and all rows have numbers below it.
#[derive(Drop)]
pub struct PackedTable {
    pub name: Utf8,
    pub schema: Schema,
    pub next: u32,
    pub rows: PackedRows,
}

impl NamedSchema for PackedTable {
    ghost name_of = { λ table. table.name };

    ghost schema_of = { λ table. table.schema };

    fn table_name(&self) -> &Utf8 {
        &self.name
    }

    fn table_schema(&self) -> &Schema {
        &self.schema
    }
}

impl CopyItem for PackedTable {
    fn copy_item(&self, alloc: Global) -> Result<Self, AllocError> {
        Ok(PackedTable {
            name: self.name.copy()?,
            schema: self.schema.copy_item(alloc)?,
            next: self.next,
            rows: self.rows.copy()?,
        })
    }
}

/// A needed initial row: its number in the table, the first statement that needed it, by its number in the
/// run, from 0, the rule by which that did, and the values.
#[derive(Drop)]
pub struct PackedRow {
    pub number: u32,
    pub statement: u32,
    pub rule: Rule,
    pub values: Values,
}

impl HasValues for PackedRow {
    ghost cells = { λ row. row.values };

    fn values(&self) -> &Values {
        &self.values
    }
}

impl CopyItem for PackedRow {
    fn copy_item(&self, _alloc: Global) -> Result<Self, AllocError> {
        Ok(PackedRow {
            number: self.number,
            statement: self.statement,
            rule: self.rule,
            values: self.values.copy()?,
        })
    }
}

/// The recorded questions and replies of a process, in order.
#[derive(Drop)]
pub struct Log {
    pub process: ProcName,
    pub entries: Entries,
}

impl CopyItem for Log {
    fn copy_item(&self, alloc: Global) -> Result<Self, AllocError> {
        Ok(Log {
            process: self.process.copy_item(alloc)?,
            entries: self.entries.copy()?,
        })
    }
}

/// A recorded question and its reply.
#[derive(Drop)]
pub struct Entry {
    pub text: Utf8,
    pub params: Values,
    pub reply: Reply,
}

impl CopyItem for Entry {
    fn copy_item(&self, alloc: Global) -> Result<Self, AllocError> {
        Ok(Entry {
            text: self.text.copy()?,
            params: self.params.copy()?,
            reply: self.reply.copy_item(alloc)?,
        })
    }
}

/// Needed files.
pub type PackedFiles = List<PackedFile>;
/// Needed tables.
pub type PackedTables = List<PackedTable>;
/// Needed rows.
pub type PackedRows = List<PackedRow>;
/// Logs.
pub type Logs = List<Log>;
/// Entries of a log.
pub type Entries = List<Entry>;
