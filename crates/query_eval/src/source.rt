//! The rows of a core's sources.

ghost use Rattle.std.specs.Prelude.{◌≡◌, ◌+◌, ◌^◌, ◌<◌, ◌≤◌};

use ldv_value::{List, Values};

/// A row of a table: its number, its version and its values.
#[derive(Drop)]
pub struct SourceRow {
    pub number: u32,
    pub version: u32,
    pub values: Values,
}

/// A source of a core: the place of its table, from 0, among the names of all tables, the number of the
/// table's columns, and the rows of the table in the order of their numbers. Rows that are in no picked
/// combination may be left out.
#[derive(Drop)]
pub struct Source {
    pub table: u32,
    pub width: usize,
    pub rows: SourceRows,
}

/// Rows of a table.
pub type SourceRows = List<SourceRow>;
/// The sources of a core, in FROM order.
pub type Sources = List<Source>;

/// The number of values of joined rows after one more source. It doesn't overflow, since it is a sum of fewer
/// than 2^64 numbers of columns, each below 2^64.
pub(crate) fn width_with(width: u128, more: usize) -> u128
    requires { width + 2 ^ 64 ≤ 2 ^ 128 }
    ensures sum { result ≡ width + more }
    ensures bound { result < width + 2 ^ 64 }
{
    width + more as u128
}
