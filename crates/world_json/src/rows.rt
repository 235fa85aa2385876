//! Rows of a document, numbered as they are read, so that a table takes them as they are.

ghost use Rattle.std.specs.Prelude.{◌≡◌, ◌<◌, ◌≤◌, ◌++◌, ◌∷◌, [], Some, None, IfOk, OnOk, length, map, option_map};
ghost use Rattle.std.specs.Prelude.{vec_capacity, vec_len};
ghost use Rattle.std.specs.List.{AllByRecursion};
ghost use Rattle.ldv_value.specs.Limits.{max_rows};
ghost use Rattle.run_model.specs.TypedPackage.{TypedValues};
ghost use Rattle.serde_json.specs.View.{view, items_view};
ghost use Rattle.world_json.specs.Shape.{array_of, each, optional_member, cell_of};
ghost use Rattle.world_json.specs.Reading.{numbered_from};

use crate::shape::{ShapeStop, read_array};
use ldv_value::{List, MAX_NEXT, Values};
use serde_json::Value;
use sql_model::{TableRow, TableRows};
use std::alloc::{AllocError, Global};
use std::marker::Model;

/// Rows with their numbers, 0, 1, 2 and on. Contracts see the values.
#[derive(Drop)]
pub(crate) struct NumberedRows {
    rows: Vec<TableRow>,
}

impl Model for NumberedRows {
    ghost use Rattle.std.specs.Prelude.{List, map};
    ghost use Rattle.ldv_value.specs.declared.value.Value.{Value as Cell};
    ghost use Rattle.world_json.specs.inner.Numbers.{AreNumberedFrom};

    ghost Value = { List (List Cell) };

    ghost view = { λ a. map (λ row. row.values) a.rows.items };

    ghost invariant = { λ a. AreNumberedFrom 0 a.rows.items };
}

impl NumberedRows {
    /// No rows. It takes no memory.
    pub(crate) fn new(alloc: Global) -> Self
        ensures { result ≡ [] }
    {
        NumberedRows {
            rows: Vec::new(alloc),
        }
    }

    /// No rows, with memory for `count` of them.
    pub(crate) fn with_capacity(alloc: Global, count: usize) -> Result<Self, AllocError>
        ensures { IfOk result (λ made. made ≡ []) }
    {
        Ok(NumberedRows {
            rows: Vec::with_capacity(alloc, count)?,
        })
    }

    /// The number of rows.
    pub(crate) fn len(&self) -> usize
        ensures { result ≡ length self.now }
    {
        self.rows.len()
    }

    /// The rows, with their numbers.
    pub(crate) fn items(&self) -> &[TableRow]
        ensures { map (λ row. row.values) result.now ≡ self.now }
    {
        self.rows.as_slice()
    }

    /// Appends a row.
    pub(crate) fn push(&mut self, values: Values) -> Result<(), AllocError>
        ensures { OnOk result (self.new ≡ self.old ++ values ∷ []) }
    {
        let number = number_at(self.rows.len());
        make_room(&mut self.rows)?;
        self.rows.push_reserved(TableRow { number, values });
        Ok(())
    }

    /// The rows with their numbers, in the same memory.
    pub(crate) fn into_rows(self) -> TableRows
        requires { length self ≤ max_rows }
        ensures { result ≡ numbered_from 0 self }
    {
        let NumberedRows { rows } = self;
        List::of_vec(rows)
    }
}

// Makes room for a row. Full rows get room for an eighth more of them, while `push` would double it.
fn make_room(rows: &mut Vec<TableRow>) -> Result<(), AllocError>
    ensures items { rows.new.items ≡ rows.old.items }
    ensures room { OnOk result (vec_len rows.new < vec_capacity rows.new) }
{
    let count = rows.len();
    if count < rows.capacity() {
        return Ok(());
    }
    rows.reserve_exact(count / 8 + 8)
}

// Only a document with more rows than the limit allows comes to `MAX_NEXT`. It has a fault, so that no table
// has that number.
fn number_at(index: usize) -> u32
    ensures { index ≤ max_rows → result ≡ index }
{
    if index < MAX_NEXT as usize {
        index as u32
    } else {
        MAX_NEXT
    }
}

/// The rows of a table; none if its member is missing.
pub(crate) fn read_rows(alloc: Global, value: Option<Value>) -> Result<NumberedRows, ShapeStop>
    ensures ok { IfOk result (λ rows.
        optional_member (array_of (array_of cell_of)) [] (option_map view value) ≡ Some rows) }
    ensures shape { result ≡ Err ShapeStop.Shape
        → optional_member (array_of (array_of cell_of)) [] (option_map view value) ≡ None }
    ensures typed { IfOk result (λ rows. AllByRecursion TypedValues rows) }
{
    match value {
        Some(Value::Array(items)) => read_row_items(alloc, items),
        Some(_) => Err(ShapeStop::Shape),
        None => Ok(NumberedRows::new(alloc)),
    }
}

fn read_row_items(alloc: Global, items: Vec<Value>) -> Result<NumberedRows, ShapeStop>
    ensures ok { IfOk result (λ rows. each (array_of cell_of) (items_view items.items) ≡ Some rows) }
    ensures shape { result ≡ Err ShapeStop.Shape → each (array_of cell_of) (items_view items.items) ≡ None }
    ensures typed { IfOk result (λ rows. AllByRecursion TypedValues rows) }
{
    let mut found = NumberedRows::with_capacity(alloc, items.len())?;
    for value in items {
        match read_array(alloc, value) {
            Ok(row) => found.push(row)?,
            Err(stop) => return Err(stop),
        }
    }
    Ok(found)
}
