//! A document whose parts have their types, before any rule is tried.

use crate::rows::NumberedRows;
use ldv_value::{Files, List, Names, Utf8, Words};
use sql_model::Columns;

/// The parts of a document: the start words, the seed, the files sorted by path and the tables sorted by
/// name.
#[derive(Drop)]
pub(crate) struct Document {
    pub start: Words,
    pub seed: u64,
    pub files: Files,
    pub tables: Drafts,
}

/// The parts of a table: its key is a list of names, and its rows have one value for each column.
#[derive(Drop)]
pub(crate) struct Draft {
    pub name: Utf8,
    pub columns: Columns,
    pub key: Names,
    pub foreign: DraftForeigns,
    pub rows: NumberedRows,
    pub next: u64,
}

/// The parts of a foreign key: the names of its columns and that of the parent.
#[derive(Drop)]
pub(crate) struct DraftForeign {
    pub columns: Names,
    pub parent: Utf8,
}

/// Foreign keys.
pub(crate) type DraftForeigns = List<DraftForeign>;

/// Tables.
pub(crate) type Drafts = List<Draft>;
