//! Joined rows by slots: a slot is the place, from 0, of a row among those of its source.

ghost use Rattle.std.specs.Prelude.{◌≡◌, ◌++◌, ◌∷◌, List as Items, IfOk, OnOk, length, map, unwrap_or};
ghost use Rattle.std.specs.Option.{option_map, option_to_list};
ghost use Rattle.ldv_value.specs.Cells.{value_at};
ghost use Rattle.query_eval.specs.Types.{Null};
ghost use Rattle.query_eval.specs.declared.source.SourceRow.{SourceRow as Given};
ghost use Rattle.query_eval.specs.inner.Slots.{row_at, values_at};

use crate::source::{Source, SourceRow};
use ldv_value::Value;
use lent_cells::{Cell, CellsAt};
use std::alloc::{AllocError, Global};

/// The slots of all rows of a source, rising. A source with more than 2^32 rows counts as out of memory.
pub(crate) fn slots_of(alloc: Global, rows: &[SourceRow]) -> Result<Vec<u32>, AllocError>
    ensures { IfOk result (λ slots. map (row_at rows.now) slots.items ≡ rows.now) }
{
    let mut slots = Vec::with_capacity(alloc, rows.len())?;
    let mut left = rows;
    'rows: while let [_row, others @ ..] = left {
        push_slot(&mut slots)?;
        left = others;
    }
    Ok(slots)
}

// Adds the next slot: rows that are those in the slots, with one row more before others, are the rows in the
// slots then.
fn push_slot(slots: &mut Vec<u32>) -> Result<(), AllocError>
    ensures { OnOk result ((rows : Items Given) (row : Given) (others : Items Given)
        → map (row_at rows) slots.old.items ++ row ∷ others ≡ rows
        → map (row_at rows) slots.new.items ++ others ≡ rows) }
{
    let slot = slot_of(slots.len())?;
    slots.push(slot)?;
    Ok(())
}

fn slot_of(place: usize) -> Result<u32, AllocError>
    ensures { IfOk result (λ slot. slot ≡ place) }
{
    if place > 0xffff_ffff {
        return Err(AllocError);
    }
    Ok(place as u32)
}

/// The value in a column of the row in a slot; there is none past the end of either.
pub(crate) fn value_in<'a>(rows: &'a [SourceRow], slot: u32, column: usize) -> Option<&'a Value>
    ensures { unwrap_or (option_map (λ v. v.now) result) Null
        ≡ value_at (row_at rows.now slot).values column }
{
    match rows.get(slot as usize) {
        None => None,
        Some(row) => row.values.get(column),
    }
}

// The number of values of the row in a slot.
fn width_in(rows: &[SourceRow], slot: u32) -> usize
    ensures { result ≡ length (row_at rows.now slot).values }
{
    match rows.get(slot as usize) {
        None => 0,
        Some(row) => row.values.len(),
    }
}

// The value in a column of the row in the last slot, where there is one.
fn value_of_last<'a>(sources: &'a [Source], last: Option<u32>, column: usize) -> Option<&'a Value>
    ensures { unwrap_or (option_map (λ v. v.now) result) Null
        ≡ value_at (values_at sources.now (option_to_list last)) column }
{
    match last {
        None => None,
        Some(slot) => match sources {
            [] => None,
            [source, _others @ ..] => value_in(source.rows.items(), slot, column),
        },
    }
}

/// The value at a place of the joined row in some slots, and in one more where it is given. There is none
/// past its end.
pub(crate) fn value_of<'a>(
    sources: &'a [Source],
    slots: &[u32],
    last: Option<u32>,
    place: usize,
) -> Option<&'a Value>
    ensures { unwrap_or (option_map (λ v. v.now) result) Null
        ≡ value_at (values_at sources.now (slots.now ++ option_to_list last)) place }
{
    let mut left = sources;
    let mut right = slots;
    let mut place = place;
    'rows: loop {
        match right {
            [] => return value_of_last(left, last, place),
            [slot, slots @ ..] => match left {
                [] => return None,
                [source, sources @ ..] => {
                    let rows = source.rows.items();
                    let width = width_in(rows, *slot);
                    if place < width {
                        return value_in(rows, *slot, place);
                    }
                    place -= width;
                    left = sources;
                    right = slots;
                }
            },
        }
    }
}

/// The joined row in some slots of sources, and in one more where it is given.
#[derive(Drop)]
pub(crate) struct SlotRow<'r> {
    pub(crate) sources: &'r [Source],
    pub(crate) slots: &'r [u32],
    pub(crate) last: Option<u32>,
}

impl<'r> CellsAt for SlotRow<'r> {
    ghost listed = { λ r. values_at r.sources.now (r.slots.now ++ option_to_list r.last) };

    fn cell<'a>(&'a self, place: usize) -> Cell<'a> {
        match value_of(self.sources, self.slots, self.last, place) {
            None => Cell::Null,
            Some(value) => Cell::of(value),
        }
    }
}
