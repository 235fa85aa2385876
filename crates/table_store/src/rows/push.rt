//! Appending rows to the parts of a grid: their numbers, their times, bits and columns.

ghost use Rattle.std.specs.Prelude.{◌≡◌, ℕ, ◌+◌, ◌^◌, ◌<◌, ◌≤◌, Bool, true, List, [], ◌∷◌, ◌++◌, length, map};
ghost use Rattle.std.specs.Prelude.{slice_index_or, vec_len, vec_capacity, IsOk, IfOk, OnOk};
ghost use Rattle.column_store.specs.Columns.{no_cells, kinds_of};
ghost use Rattle.table_store.specs.inner.Grid.{IsGrid, slots_of, new_slot, fits_kinds};
ghost use Rattle.table_store.specs.inner.Grid.{are_of_kinds, AreNumberedFrom, next_after};

use column_store::{Bits, Column, push_cells, reserve_cells, reserve_eighth};
use sql_model::{TableRow, TableRows};
use std::alloc::AllocError;

/// Reserves memory for more rows. The rows stay as they are, also on `AllocError`.
pub(crate) fn reserve_rows(
    numbers: &mut Vec<u32>,
    since: &mut Vec<u32>,
    standing: &mut Bits,
    columns: &mut Vec<Column>,
    more: usize,
) -> Result<(), AllocError>
    requires { more < 2 ^ 32 }
    ensures grid { (next : ℕ)
        → IsGrid numbers.old.items since.old.items standing.old.items columns.old.items next
        → IsGrid numbers.new.items since.new.items standing.new.items columns.new.items next }
    ensures slots { slots_of numbers.new.items since.new.items standing.new.items columns.new.items
        ≡ slots_of numbers.old.items since.old.items standing.old.items columns.old.items }
    ensures kinds { kinds_of columns.new.items ≡ kinds_of columns.old.items }
    ensures numbers_room { OnOk result (vec_len numbers.new + more ≤ vec_capacity numbers.new) }
    ensures since_room { OnOk result (vec_len since.new + more ≤ vec_capacity since.new) }
    ensures standing_room { OnOk result (more ≤ standing.new.spare) }
    ensures cells_room { OnOk result ((k : ℕ) → k < length columns.new.items
        → more ≤ (slice_index_or columns.new.items k no_cells).spare) }
{
    reserve_parts(numbers, since, standing, columns, more)
}

fn reserve_parts(
    numbers: &mut Vec<u32>,
    since: &mut Vec<u32>,
    standing: &mut Bits,
    columns: &mut Vec<Column>,
    more: usize,
) -> Result<(), AllocError>
    requires { more < 2 ^ 32 }
    ensures numbers { numbers.new.items ≡ numbers.old.items }
    ensures since { since.new.items ≡ since.old.items }
    ensures standing { standing.new.items ≡ standing.old.items }
    ensures count { length columns.new.items ≡ length columns.old.items }
    ensures cells { (k : ℕ) → k < length columns.old.items
        → (slice_index_or columns.new.items k no_cells).items
        ≡ (slice_index_or columns.old.items k no_cells).items }
    ensures kinds { (k : ℕ) → k < length columns.old.items
        → (slice_index_or columns.new.items k no_cells).text
        ≡ (slice_index_or columns.old.items k no_cells).text }
    ensures numbers_room { OnOk result (vec_len numbers.new + more ≤ vec_capacity numbers.new) }
    ensures since_room { OnOk result (vec_len since.new + more ≤ vec_capacity since.new) }
    ensures standing_room { OnOk result (more ≤ standing.new.spare) }
    ensures cells_room { OnOk result ((k : ℕ) → k < length columns.old.items
        → more ≤ (slice_index_or columns.new.items k no_cells).spare) }
{
    reserve_eighth(numbers, more)?;
    reserve_eighth(since, more)?;
    standing.reserve(more)?;
    reserve_cells(columns, more)
}

/// Adds a row. `reserve_rows` has reserved the memory.
pub(crate) fn push_row(
    numbers: &mut Vec<u32>,
    since: &mut Vec<u32>,
    standing: &mut Bits,
    columns: &mut Vec<Column>,
    next: u32,
    row: TableRow,
    time: u32,
) -> Result<(), AllocError>
    requires grid { IsGrid numbers.old.items since.old.items standing.old.items columns.old.items next }
    requires above { next ≤ row.number }
    requires few { row.number + 1 < 2 ^ 32 }
    requires kinds { fits_kinds (kinds_of columns.old.items) row.values ≡ true }
    requires numbers_room { vec_len numbers.old < vec_capacity numbers.old }
    requires since_room { vec_len since.old < vec_capacity since.old }
    requires standing_room { 1 ≤ standing.old.spare }
    requires cells_room { (k : ℕ) → k < length columns.old.items
        → 1 ≤ (slice_index_or columns.old.items k no_cells).spare }
    ensures grid { IsGrid numbers.new.items since.new.items standing.new.items columns.new.items
        (row.number + 1) }
    ensures slots { slots_of numbers.new.items since.new.items standing.new.items columns.new.items
        ≡ slots_of numbers.old.items since.old.items standing.old.items columns.old.items
        ++ new_slot time row ∷ [] }
    ensures kinds { kinds_of columns.new.items ≡ kinds_of columns.old.items }
    ensures width { length columns.new.items ≡ length columns.old.items }
    ensures numbers_left { (vec_len numbers.new ≡ vec_len numbers.old + 1)
        × (vec_capacity numbers.old ≤ vec_capacity numbers.new) }
    ensures since_left { (vec_len since.new ≡ vec_len since.old + 1)
        × (vec_capacity since.old ≤ vec_capacity since.new) }
    ensures standing_left { standing.old.spare ≤ standing.new.spare + 1 }
    ensures cells_left { (k : ℕ) → k < length columns.old.items
        → (slice_index_or columns.old.items k no_cells).spare
        ≤ (slice_index_or columns.new.items k no_cells).spare + 1 }
    ensures succeeds { IsOk result }
{
    let TableRow { number, values } = row;
    numbers.push(number)?;
    since.push(time)?;
    standing.push(true)?;
    push_cells(columns, values)?;
    Ok(())
}

/// Adds rows, and returns the number after theirs. `reserve_rows` has reserved the memory.
pub(crate) fn push_rows(
    numbers: &mut Vec<u32>,
    since: &mut Vec<u32>,
    standing: &mut Bits,
    columns: &mut Vec<Column>,
    first: u32,
    rows: TableRows,
    time: u32,
) -> Result<u32, AllocError>
    requires grid { IsGrid numbers.old.items since.old.items standing.old.items columns.old.items first }
    requires numbered { AreNumberedFrom first rows }
    requires kinds { are_of_kinds (kinds_of columns.old.items) rows ≡ true }
    requires numbers_room { vec_len numbers.old + length rows ≤ vec_capacity numbers.old }
    requires since_room { vec_len since.old + length rows ≤ vec_capacity since.old }
    requires standing_room { length rows ≤ standing.old.spare }
    requires cells_room { (k : ℕ) → k < length columns.old.items
        → length rows ≤ (slice_index_or columns.old.items k no_cells).spare }
    ensures grid { IfOk result
        (IsGrid numbers.new.items since.new.items standing.new.items columns.new.items) }
    ensures slots { slots_of numbers.new.items since.new.items standing.new.items columns.new.items
        ≡ slots_of numbers.old.items since.old.items standing.old.items columns.old.items
        ++ map (new_slot time) rows }
    ensures kinds { kinds_of columns.new.items ≡ kinds_of columns.old.items }
    ensures next { IfOk result (λ next. next ≡ next_after first rows) }
    ensures succeeds { IsOk result }
{
    let mut next = first;
    for row in rows.into_vec() {
        let number = row.number;
        push_row(numbers, since, standing, columns, next, row, time)?;
        next = number + 1;
    }
    Ok(next)
}
