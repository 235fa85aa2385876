//! The rows of a table as a list: those that are live now, and those that were live after a time.

ghost use Rattle.std.specs.Prelude.{◌≡◌, ◌++◌, ◌+◌, ◌<◌, ◌≤◌, length, slice_index_or, IfOk, IsSome, OnOk};
ghost use Rattle.std.specs.Option.{option_to_list};
ghost use Rattle.row_version.specs.History.{current_values};
ghost use Rattle.table_store.specs.Histories.{no_history, row_now, row_as_of, rows_now, rows_as_of};

use crate::rows::Rows;
use lanes::next_one;
use ldv_value::List;
use sql_model::{TableRow, TableRows};
use std::alloc::{AllocError, Global};

// Adds the row in a slot, which stands.
#[tactic(auto, using(crate::proofs::TableLaws::some_within))]
fn add_standing(
    alloc: Global,
    rows: &Rows,
    slot: usize,
    made: &mut TableRows,
) -> Result<(), AllocError>
    requires { IsSome (current_values (slice_index_or rows.now.slots slot no_history).changes) }
    ensures { OnOk result (made.new
        ≡ made.old ++ option_to_list (row_now (slice_index_or rows.now.slots slot no_history))) }
{
    let values = rows.copy_values(alloc, slot)?;
    let number = rows.number(slot);
    made.push(TableRow { number, values })
}

// The slot after one whose row stands.
#[tactic(auto, using(crate::proofs::TableLaws::some_within))]
fn after(rows: &Rows, slot: u64) -> u64
    requires { IsSome (current_values (slice_index_or rows.now.slots slot no_history).changes) }
    ensures next { result ≡ slot + 1 }
    ensures within { result ≤ length rows.now.slots }
{
    let _count = rows.len();
    slot + 1
}

/// The rows that are live now, found by their bits.
#[tactic(auto, using(crate::proofs::RowWalks::walk_rules))]
pub(crate) fn standing_rows(alloc: Global, rows: &Rows) -> Result<TableRows, AllocError>
    ensures { IfOk result (λ made. made ≡ rows_now rows.now.slots) }
{
    let words = rows.standing_slots();
    let mut made = List::new(alloc);
    let mut at = 0;
    'slots: loop {
        match next_one(words, at) {
            None => return Ok(made),
            Some(slot) => {
                add_standing(alloc, rows, slot as usize, &mut made)?;
                at = after(rows, slot);
            }
        }
    }
}

/// The rows that were live after a time, found slot by slot.
pub(crate) fn rows_as_of(alloc: Global, rows: &Rows, time: u32) -> Result<TableRows, AllocError>
    ensures { IfOk result (λ made. made ≡ rows_as_of time rows.now.slots) }
{
    let mut made = List::new(alloc);
    for slot in 0..rows.len() {
        let row = row_as_of(rows, alloc, slot, time)?;
        made.push_some(row)?;
    }
    Ok(made)
}

// The row in a slot after a time, where it stood.
fn row_as_of(
    rows: &Rows,
    alloc: Global,
    slot: usize,
    time: u32,
) -> Result<Option<TableRow>, AllocError>
    requires { slot < length rows.now.slots }
    ensures { IfOk result (λ row. row ≡ row_as_of time (slice_index_or rows.now.slots slot no_history)) }
{
    match rows.values_as_of(alloc, slot, time)? {
        None => Ok(None),
        Some(values) => Ok(Some(TableRow {
            number: rows.number(slot),
            values,
        })),
    }
}
