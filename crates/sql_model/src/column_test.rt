//! Tests of the values in single columns.

use ldv_value::Cmp;

/// A test of a value.
#[derive(Clone, Copy)]
pub enum CellTest {
    /// The comparison of the value with the number is True.
    Compare { op: Cmp, constant: i64 },
    /// The value is NULL.
    IsNull,
    /// The value isn't NULL.
    IsNotNull,
}

/// A test of the value in a column, by its place from 0. Past the last column there is NULL.
#[derive(Clone, Copy)]
pub struct ColumnTest {
    pub column: usize,
    pub test: CellTest,
}
