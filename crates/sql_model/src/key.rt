//! Keys of rows, and their order.

ghost use Rattle.std.specs.Prelude.{◌≡◌, IfOk};
ghost use Rattle.ldv_value.specs.Cells.{value_at};

use ldv_value::{CopyItem, Value, Values};
use std::alloc::{AllocError, Global};

/// The values of a row in its key columns. Keys are ordered value by value (`key_order`).
#[derive(Drop, PartialEq, Eq, PartialOrd, Ord)]
pub struct RowKey {
    pub values: Values,
}

/// A copy of a row's value at a place, from 0; NULL if the row has no value there.
pub fn value_at(alloc: Global, row: &Values, place: usize) -> Result<Value, AllocError>
    ensures { IfOk result (λ value. value ≡ value_at row.now place) }
{
    match row.get(place) {
        None => Ok(Value::Null),
        Some(value) => value.copy_item(alloc),
    }
}
