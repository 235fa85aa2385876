//! One cell of each of several columns.

ghost use Rattle.std.specs.Prelude.{◌≡◌, ℕ, ◌+◌, ◌-◌, ◌^◌, ◌<◌, ◌≤◌, Bool, true, false, List, [], ◌∷◌, ◌++◌};
ghost use Rattle.std.specs.Prelude.{length, slice_index_or, slice_set, OnOk, OnErr, IfOk, IsOk, vec_len, map};
ghost use Rattle.std.specs.Cmp.Lexicographic.{slice_cmp};
ghost use Rattle.ldv_value.specs.Cells.{value_at};
ghost use Rattle.ldv_value.specs.Order.{order};
ghost use Rattle.column_store.specs.Types.{Null};
ghost use Rattle.column_store.specs.Columns.{no_cells, values_at, kinds_of, ArePushed, AreSet, AreLong};
ghost use Rattle.column_store.specs.Columns.{FitColumns};

use crate::column::Column;
use ldv_value::{List, Value, Values};
use std::alloc::{AllocError, Global};
use std::cmp::Ordering;
use std::mem;

/// Reserves memory for `more` cells, fewer than 2^32, in each column. On `AllocError` the cells are as they
/// were, and `spare` is no smaller in any column.
pub fn reserve_cells(columns: &mut Vec<Column>, more: usize) -> Result<(), AllocError>
    requires { more < 2 ^ 32 }
    ensures count { length columns.new.items ≡ length columns.old.items }
    ensures cells { (k : ℕ) → k < length columns.old.items
        → (slice_index_or columns.new.items k no_cells).items
        ≡ (slice_index_or columns.old.items k no_cells).items }
    ensures kinds { (k : ℕ) → k < length columns.old.items
        → (slice_index_or columns.new.items k no_cells).text
        ≡ (slice_index_or columns.old.items k no_cells).text }
    ensures room { OnOk result ((k : ℕ) → k < length columns.old.items
        → more ≤ (slice_index_or columns.new.items k no_cells).spare) }
    ensures spare { (k : ℕ) → k < length columns.old.items
        → (slice_index_or columns.old.items k no_cells).spare
        ≤ (slice_index_or columns.new.items k no_cells).spare }
{
    for place in 0..columns.len() {
        let column = &mut columns[place];
        column.reserve(more)?;
    }
    Ok(())
}

/// Adds a cell to each column, one value for each. What `Column::push` asks holds for each column.
pub fn push_cells(columns: &mut Vec<Column>, values: Values) -> Result<(), AllocError>
    requires count { length values ≡ length columns.old.items }
    requires few { (k : ℕ) → k < length columns.old.items
        → length (slice_index_or columns.old.items k no_cells).items < 2 ^ 32 }
    requires room { (k : ℕ) → k < length columns.old.items
        → 1 ≤ (slice_index_or columns.old.items k no_cells).spare }
    requires kinds { FitColumns columns.old.items values }
    ensures count { vec_len columns.new ≡ vec_len columns.old }
    ensures pushed { ArePushed columns.old.items values columns.new.items }
    ensures spare { (k : ℕ) → k < length columns.old.items
        → (slice_index_or columns.old.items k no_cells).spare
        ≤ (slice_index_or columns.new.items k no_cells).spare + 1 }
    ensures succeeds { IsOk result }
{
    let mut left = values.into_vec();
    for place in 0..columns.len() {
        let value = take_value(&mut left, place);
        let column = &mut columns[place];
        column.push(value)?;
    }
    Ok(())
}

/// Replaces the cell of a slot in each column, by one value for each. What `Column::set` asks holds for each
/// column.
pub fn set_cells(columns: &mut Vec<Column>, slot: usize, values: Values)
    requires count { length values ≡ length columns.old.items }
    requires within { (k : ℕ) → k < length columns.old.items
        → slot < length (slice_index_or columns.old.items k no_cells).items }
    requires kinds { FitColumns columns.old.items values }
    ensures count { vec_len columns.new ≡ vec_len columns.old }
    ensures set { AreSet columns.old.items slot values columns.new.items }
{
    let mut left = values.into_vec();
    for place in 0..columns.len() {
        let value = take_value(&mut left, place);
        let column = &mut columns[place];
        column.set(slot, value);
    }
}

// Moves the value at a place out, and leaves NULL there.
fn take_value(values: &mut Vec<Value>, place: usize) -> Value
    requires { place < vec_len values.old }
    ensures value { result ≡ slice_index_or values.old.items place Null }
    ensures rest { (k : ℕ) → place < k → slice_index_or values.new.items k Null
        ≡ slice_index_or values.old.items k Null }
    ensures count { vec_len values.new ≡ vec_len values.old }
{
    mem::replace(&mut values[place], Value::Null)
}

/// A copy of the cell of a slot in each column.
pub fn copy_cells(alloc: Global, columns: &Vec<Column>, slot: usize) -> Result<Values, AllocError>
    requires { (k : ℕ) → k < length columns.now.items
        → slot < length (slice_index_or columns.now.items k no_cells).items }
    ensures { IfOk result (λ values. values ≡ values_at columns.now.items slot) }
{
    let mut values = Vec::with_capacity(alloc, columns.len())?;
    for place in 0..columns.len() {
        let column = &columns[place];
        values.push(column.copy_cell(alloc, slot)?)?;
    }
    Ok(List::of_vec(values))
}

/// How the cells of a slot in the columns at `places`, from 0, compare to values, one after the other. A
/// place past the last column has NULL.
pub fn compare_cells(
    columns: &Vec<Column>,
    slot: usize,
    places: &[usize],
    values: &[Value],
) -> Ordering
    requires { (k : ℕ) → k < length columns.now.items
        → slot < length (slice_index_or columns.now.items k no_cells).items }
    ensures { result ≡ slice_cmp order
        (map (value_at (values_at columns.now.items slot)) places.now) values.now }
{
    let mut left = places;
    let mut right = values;
    loop {
        match left {
            [] => return compare_empty(right),
            [place, rest @ ..] => match right {
                [] => return Ordering::Greater,
                [value, more @ ..] => {
                    let between = compare_at(columns, slot, *place, value);
                    if between.is_ne() {
                        return between;
                    }
                    left = rest;
                    right = more;
                }
            },
        }
    }
}

// How no values compare to some.
fn compare_empty(values: &[Value]) -> Ordering
    ensures { result ≡ slice_cmp order [] values.now }
{
    match values {
        [] => Ordering::Equal,
        [_first, ..] => Ordering::Less,
    }
}

// How the cell at a place compares to a value. Past the last column there is NULL.
#[tactic(auto, using(crate::proofs::ColumnLaws::place_rules))]
fn compare_at(columns: &Vec<Column>, slot: usize, place: usize, value: &Value) -> Ordering
    requires { (k : ℕ) → k < length columns.now.items
        → slot < length (slice_index_or columns.now.items k no_cells).items }
    ensures { result ≡ order (value_at (values_at columns.now.items slot) place) value.now }
{
    if place >= columns.len() {
        let null = Value::Null;
        return null.cmp(value);
    }
    let column = &columns[place];
    column.compare_cell(slot, value)
}

/// Columns with no cells, one for each item of `texts`: of texts if the item is true, and else of numbers.
pub fn empty_columns(alloc: Global, texts: &[bool]) -> Result<Vec<Column>, AllocError>
    ensures kinds { IfOk result (λ columns. kinds_of columns.items ≡ texts.now) }
    ensures empty { IfOk result (λ columns. AreLong 0 columns.items) }
{
    let mut columns = Vec::with_capacity(alloc, texts.len())?;
    for text in texts {
        columns.push(Column::new(alloc, *text))?;
    }
    Ok(columns)
}
