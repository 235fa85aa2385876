//! Changes that are planned: nothing has changed yet, and the table's own rules don't refuse them.

use crate::keys::index::Index;
use crate::keys::new_keys::NewKeys;
use ldv_value::RowList;
use sql_model::TableRows;

/// New rows of a table, and their keys.
#[derive(Drop)]
pub struct InsertPlan {
    /// The rows, as they were given.
    pub rows: RowList,
    pub(crate) keys: NewKeys,
}

/// Other values of rows of a table, and the numbers that the keys get that change hands.
#[derive(Drop)]
pub struct ReplacePlan {
    /// The rows with these values, as they were given.
    pub rows: TableRows,
    pub(crate) claims: Index,
}
