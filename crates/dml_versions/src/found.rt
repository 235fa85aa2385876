//! The rows that a statement matches.

use ldv_value::{List, Values};

/// A row that a statement matches: its number, its version and its values, as they are before the change.
#[derive(Drop)]
pub(crate) struct Found {
    pub number: u32,
    pub version: u32,
    pub values: Values,
}

/// Rows, sorted by number.
pub(crate) type FoundRows = List<Found>;
